// Fields of a class as rows, in the order in which the class lists them.

ghost use Rattle.std.specs.Prelude.{◌≡◌, ◌<◌, ◌++◌, ℕ, List, length, map, IfOk, IsTrue};
ghost use Rattle.std.specs.List.{list_all};
ghost use Rattle.pi_model.specs.declared.numbers.NameNo.{NameNo};
ghost use Rattle.pi_model.specs.Uses.{field_below};
ghost use Rattle.pi_contents.specs.Asked.{has_init};
ghost use Rattle.pi_contents.specs.Named.{field_content, init_content, text_in};
ghost use Rattle.pi_contents.specs.Naming.{named_by_field};
ghost use Rattle.pi_classtables.specs.Numbers.{Pools, index_of};
ghost use Rattle.pi_dexrows.specs.Parts.{field_numbers, part_of, parts_of};
ghost use Rattle.pi_dexrows.specs.Taken.{behind_field, behind_fields, behind_init, init_no};

use crate::names::text;
use crate::numbers::{behind, first};
use pi_dexdata::values::value;
use pi_dextables::tables::{FieldRow, Value};
use pi_model::describe::{FieldDesc, Init};
use pi_model::listed::Listed;
use pi_model::prog::Prog;
use std::alloc::{AllocError, Global};

/// A field as a row, with the value that sets it and whether one does.
#[derive(Clone, Copy, Debug)]
pub(crate) struct FieldPart {
    pub row: FieldRow,
    pub value: Value,
    pub is_set: bool,
}

/// Whether a field is set to something.
fn is_set(init: Init) -> bool
    ensures { (text : NameNo → List ℕ) → result ≡ has_init (init_content text init) }
{
    match init {
        Init::Zero => false,
        Init::Word(_) | Init::Long(_) | Init::Str(_) | Init::Cls(_) => true,
    }
}

/// The number of what a value names, the first of the numbers, 0 where it names nothing.
fn init_number(init: Init, numbers: &[u32]) -> u32
    ensures { result ≡ init_no init numbers.now }
{
    match init {
        Init::Zero | Init::Word(_) | Init::Long(_) => 0,
        Init::Str(_) | Init::Cls(_) => first(numbers),
    }
}

/// The numbers behind that of what a value names.
fn behind_value(init: Init, numbers: &[u32]) -> &[u32]
    ensures { result.now ≡ behind_init init numbers.now }
{
    match init {
        Init::Zero | Init::Word(_) | Init::Long(_) => numbers,
        Init::Str(_) | Init::Cls(_) => behind(numbers),
    }
}

/// The numbers behind those of a field.
fn behind_field<'a>(field: &FieldDesc, numbers: &'a [u32]) -> &'a [u32]
    ensures { result.now ≡ behind_field field.now numbers.now }
{
    behind_value(field.init, behind(numbers))
}

/// The numbers behind those of fields.
pub(crate) fn behind_fields<'a>(fields: &[FieldDesc], numbers: &'a [u32]) -> &'a [u32]
    ensures { result.now ≡ behind_fields fields.now numbers.now }
{
    let mut left = numbers;
    for field in fields {
        left = behind_field(field, left);
    }
    left
}

/// A field as a row, by the numbers of what it names, which stand first.
fn field_part(prog: &Prog, field: &FieldDesc, numbers: &[u32]) -> FieldPart
    requires { field.now.ty.0 < length prog.now.names }
    ensures { (p : Pools) (class rest : List ℕ)
        → numbers.now ≡ map (index_of p) (named_by_field class (field_content (text_in prog.now) field.now)) ++ rest
        → result ≡ part_of p class (field_content (text_in prog.now) field.now) }
{
    let id = first(numbers);
    let number = init_number(field.init, behind(numbers));
    let value = value(text(prog, field.ty), field.init, number);
    FieldPart {
        row: FieldRow {
            id,
            flags: field.flags,
        },
        value,
        is_set: is_set(field.init),
    }
}

/// Fields as rows, by the numbers of what they name, which stand first.
pub(crate) fn field_parts(
    alloc: Global,
    prog: &Prog,
    fields: &[FieldDesc],
    numbers: &[u32],
) -> Result<Listed<FieldPart>, AllocError>
    requires { IsTrue (list_all (field_below (length prog.now.names)) fields.now) }
    ensures { IfOk result (λ parts. (p : Pools) (class rest : List ℕ)
        → numbers.now ≡ field_numbers p (text_in prog.now) class fields.now rest
        → parts ≡ parts_of p (text_in prog.now) class fields.now) }
{
    let mut parts = Listed::new(alloc);
    let mut left = numbers;
    for field in fields {
        parts.push(field_part(prog, field, left))?;
        left = behind_field(field, left);
    }
    Ok(parts)
}
