// The fields of a class as its row has them: static ones with their values, and the others.

ghost use Rattle.std.specs.Prelude.{◌≡◌, ℕ, List, length, filter, not, IfOk, IsTrue};
ghost use Rattle.std.specs.List.{list_all};
ghost use Rattle.pi_model.specs.Flags.{is_static};
ghost use Rattle.pi_model.specs.Uses.{field_below};
ghost use Rattle.pi_contents.specs.Named.{text_in};
ghost use Rattle.pi_classtables.specs.Numbers.{Pools};
ghost use Rattle.pi_dexrows.specs.declared.fields.FieldPart.{FieldPart as Part};
ghost use Rattle.pi_dexrows.specs.Parts.{field_numbers, instances_among, parts_of, rows_of, statics_among};
ghost use Rattle.pi_dexrows.specs.Lists.{field_lists};

use crate::fields::{FieldPart, field_parts};
use crate::names::is_static;
use crate::order::arrange_fields;
use crate::values::set_values;
use pi_dextables::tables::{FieldRow, Value};
use pi_model::describe::FieldDesc;
use pi_model::listed::Listed;
use pi_model::prog::Prog;
use std::alloc::{AllocError, Global};

/// The static fields of a class, the values of the first of them, and its other fields.
#[derive(Debug, Drop)]
pub(crate) struct FieldLists {
    pub values: Listed<Value>,
    pub statics: Listed<FieldRow>,
    pub instances: Listed<FieldRow>,
}

/// The static fields, as they stand.
fn static_parts(alloc: Global, parts: &[FieldPart]) -> Result<Vec<FieldPart>, AllocError>
    ensures { IfOk result (λ statics. statics.items ≡ filter (λ (f : Part). is_static f.row.flags) parts.now) }
{
    parts
        .iter()
        .filter(|part| is_static(part.row.flags))
        .copied()
        .collect(alloc)
}

/// The other fields, as they stand.
fn instance_parts(alloc: Global, parts: &[FieldPart]) -> Result<Vec<FieldPart>, AllocError>
    ensures { IfOk result (λ instances. instances.items ≡ filter (λ (f : Part). not (is_static f.row.flags)) parts.now) }
{
    parts
        .iter()
        .filter(|part| !is_static(part.row.flags))
        .copied()
        .collect(alloc)
}

/// The static fields by rising numbers.
fn statics_among(alloc: Global, parts: &[FieldPart]) -> Result<Vec<FieldPart>, AllocError>
    ensures { IfOk result (λ statics. statics.items ≡ statics_among parts.now) }
{
    let statics = static_parts(alloc, parts)?;
    arrange_fields(statics)
}

/// The other fields by rising numbers.
fn instances_among(alloc: Global, parts: &[FieldPart]) -> Result<Vec<FieldPart>, AllocError>
    ensures { IfOk result (λ instances. instances.items ≡ instances_among parts.now) }
{
    let instances = instance_parts(alloc, parts)?;
    arrange_fields(instances)
}

/// The rows of fields.
fn rows_of(alloc: Global, parts: &[FieldPart]) -> Result<Vec<FieldRow>, AllocError>
    ensures { IfOk result (λ rows. rows.items ≡ rows_of parts.now) }
{
    parts.iter().map(|part| part.row).collect(alloc)
}

/// The lists of fields.
fn lists_of(alloc: Global, parts: &[FieldPart]) -> Result<FieldLists, AllocError>
    ensures { IfOk result (λ lists. lists ≡ field_lists parts.now) }
{
    let statics = statics_among(alloc, parts)?;
    let instances = instances_among(alloc, parts)?;
    let values = set_values(alloc, statics.as_slice())?;
    Ok(FieldLists {
        values,
        statics: Listed::from_vec(rows_of(alloc, statics.as_slice())?),
        instances: Listed::from_vec(rows_of(alloc, instances.as_slice())?),
    })
}

/// The lists of the fields of a class, by the numbers of what they name, which stand first.
pub(crate) fn field_lists(
    alloc: Global,
    prog: &Prog,
    fields: &[FieldDesc],
    numbers: &[u32],
) -> Result<FieldLists, AllocError>
    requires { IsTrue (list_all (field_below (length prog.now.names)) fields.now) }
    ensures { IfOk result (λ lists. (p : Pools) (class rest : List ℕ)
        → numbers.now ≡ field_numbers p (text_in prog.now) class fields.now rest
        → lists ≡ field_lists (parts_of p (text_in prog.now) class fields.now)) }
{
    let parts = field_parts(alloc, prog, fields, numbers)?;
    let lists = lists_of(alloc, parts.as_slice())?;
    Ok(lists)
}
