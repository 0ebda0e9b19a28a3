// The bytes of class data, put behind the bytes that there are.

ghost use Rattle.std.specs.Prelude.{◌≡◌, ◌++◌, ◌-◌, ◌==◌, ◌&&◌, ℕ, List, None, length, drop, map, OnOk, IfOk};
ghost use Rattle.pi_format.specs.Rules.Rows.{has_code, counted_from};
ghost use Rattle.pi_parts.specs.Lebs.{uleb_bytes};
ghost use Rattle.pi_dextables.specs.Rows.{bodies_in, bodies_of, next_offset, offsets_left, field_row, method_rows, class_rows_with, row_bytes, code_bytes, rows_bytes, class_data, has_no_rows};
ghost use Rattle.pi_dexlay.specs.Heads.{read_row};

use pi_dextables::tables::{Body, Class, FieldRow, MethodRow};
use pi_format::lists::MemberList;
use pi_parts::put::put_uleb;
use std::alloc::AllocError;

/// A member that a class lists, with the offset of its code.
#[derive(Clone, Copy, Debug)]
pub(crate) struct Row {
    pub id: u32,
    pub flags: u32,
    pub code: usize,
}

/// Whether the rows of a list have an offset of code.
fn has_code(list: MemberList) -> bool
    ensures { result ≡ has_code list }
{
    match list {
        MemberList::StaticFields | MemberList::InstanceFields => false,
        MemberList::DirectMethods | MemberList::VirtualMethods => true,
    }
}

/// How far an id is behind that of the row before it.
fn difference(id: u32, before: Option<u32>) -> usize
    ensures { result ≡ id - counted_from before }
{
    match before {
        None => id as usize,
        Some(last) => id.saturating_sub(last) as usize,
    }
}

/// A row.
#[tactic(auto, unfolding(pi_dextables::specs::Rows::row_bytes))]
fn put_row(
    out: &mut Vec<u8>,
    list: MemberList,
    before: Option<u32>,
    row: Row,
) -> Result<(), AllocError>
    ensures { OnOk result (out.new.items ≡ out.old.items ++ row_bytes list before (read_row row)) }
{
    put_uleb(out, difference(row.id, before))?;
    put_uleb(out, row.flags as usize)?;
    put_offset(out, list, row.code)?;
    Ok(())
}

/// The offset of code in a list whose rows have one.
fn put_offset(out: &mut Vec<u8>, list: MemberList, code: usize) -> Result<(), AllocError>
    ensures { OnOk result (out.new.items ≡ out.old.items ++ code_bytes (has_code list) code) }
{
    if has_code(list) {
        put_uleb(out, code)?;
    }
    Ok(())
}

/// The rows of fields, of which the first has its id counted from that one, if any.
#[tactic(auto, using(crate::proofs::RowSteps::field_step))]
fn put_fields(
    out: &mut Vec<u8>,
    list: MemberList,
    mut before: Option<u32>,
    fields: &[FieldRow],
) -> Result<(), AllocError>
    ensures { OnOk result (out.new.items ≡ out.old.items ++ rows_bytes list before (map field_row fields.now)) }
{
    for field in fields {
        let row = Row {
            id: field.id,
            flags: field.flags,
            code: 0,
        };
        put_row(out, list, before, row)?;
        before = Some(field.id);
    }
    Ok(())
}

/// The first of the offsets for a method that has a code, 0 for another.
fn next_offset(code: &Option<Body>, offsets: &[usize]) -> usize
    ensures { result ≡ next_offset code.now offsets.now }
{
    match (code, offsets) {
        (Some(_), [first, ..]) => *first,
        _ => 0,
    }
}

/// The offsets that are left behind that of a method.
fn offsets_left<'a>(code: &Option<Body>, offsets: &'a [usize]) -> &'a [usize]
    ensures { result.now ≡ offsets_left code.now offsets.now }
{
    match (code, offsets) {
        (Some(_), [_, rest @ ..]) => rest,
        _ => offsets,
    }
}

/// The rows of methods, which take as many of the offsets as there are codes; and the offsets that are left.
#[tactic(auto, using(crate::proofs::RowSteps::method_step, crate::proofs::RowSteps::left_step))]
fn put_methods<'a>(
    out: &mut Vec<u8>,
    list: MemberList,
    methods: &[MethodRow],
    offsets: &'a [usize],
) -> Result<&'a [usize], AllocError>
    ensures bytes { OnOk result (out.new.items ≡ out.old.items ++ rows_bytes list None (method_rows offsets.now methods.now)) }
    ensures left { IfOk result (λ left. left.now ≡ drop (length (bodies_in methods.now)) offsets.now) }
{
    let mut before = None;
    let mut left = offsets;
    for method in methods {
        let row = Row {
            id: method.id,
            flags: method.flags,
            code: next_offset(&method.code, left),
        };
        put_row(out, list, before, row)?;
        before = Some(method.id);
        left = offsets_left(&method.code, left);
    }
    Ok(left)
}

/// How many rows the four lists have.
fn put_counts(out: &mut Vec<u8>, class: &Class) -> Result<(), AllocError>
    ensures { OnOk result (out.new.items ≡ out.old.items ++ (uleb_bytes (length class.now.statics) ++ (uleb_bytes (length class.now.instances) ++ (uleb_bytes (length class.now.directs) ++ uleb_bytes (length class.now.virtuals))))) }
{
    put_uleb(out, class.statics.len())?;
    put_uleb(out, class.instances.len())?;
    put_uleb(out, class.directs.len())?;
    put_uleb(out, class.virtuals.len())?;
    Ok(())
}

/// Whether a class has no fields.
fn has_no_fields(class: &Class) -> bool
    ensures { result ≡ (length class.now.statics == 0) && (length class.now.instances == 0) }
{
    class.statics.is_empty() && class.instances.is_empty()
}

/// Whether a class has no methods.
fn has_no_methods(class: &Class) -> bool
    ensures { result ≡ (length class.now.directs == 0) && (length class.now.virtuals == 0) }
{
    class.directs.is_empty() && class.virtuals.is_empty()
}

/// Whether a class has no members.
#[tactic(auto, using(crate::proofs::RowSteps::no_rows))]
fn has_no_members(class: &Class) -> bool
    ensures { (offsets : List ℕ) → result ≡ has_no_rows (class_rows_with offsets class.now) }
{
    has_no_fields(class) && has_no_methods(class)
}

/// The class data of a class, nothing where it has no members; and the offsets that are left.
pub(crate) fn put_class_data<'a>(
    out: &mut Vec<u8>,
    class: &Class,
    offsets: &'a [usize],
) -> Result<&'a [usize], AllocError>
    ensures bytes { OnOk result (out.new.items ≡ out.old.items ++ class_data (class_rows_with offsets.now class.now)) }
    ensures left { IfOk result (λ left. left.now ≡ drop (length (bodies_of class.now)) offsets.now) }
{
    if has_no_members(class) {
        return Ok(offsets);
    }
    put_counts(out, class)?;
    let statics = class.statics.as_slice();
    let instances = class.instances.as_slice();
    put_fields(out, MemberList::StaticFields, None, statics)?;
    put_fields(out, MemberList::InstanceFields, None, instances)?;
    let left = put_methods(
        out,
        MemberList::DirectMethods,
        class.directs.as_slice(),
        offsets,
    )?;
    let left = put_methods(
        out,
        MemberList::VirtualMethods,
        class.virtuals.as_slice(),
        left,
    )?;
    Ok(left)
}
