// The values that set static fields, in the order of the fields.

ghost use Rattle.std.specs.Prelude.{◌≡◌, ◌≤◌, length, map, take, IfOk};
ghost use Rattle.pi_dexrows.specs.declared.fields.FieldPart.{FieldPart as Part};
ghost use Rattle.pi_dexrows.specs.Parts.{set_values};

use crate::fields::FieldPart;
use pi_dextables::tables::Value;
use pi_model::listed::Listed;
use std::alloc::{AllocError, Global};

/// How many fields there are up to the last one that is set.
fn set_count(fields: &[FieldPart]) -> usize
    ensures within { result ≤ length fields.now }
    ensures values { set_values fields.now ≡ map (λ (f : Part). f.value) (take result fields.now) }
{
    let mut count = 0;
    for (place, field) in fields.iter().enumerate() {
        if field.is_set {
            count = place + 1;
        }
    }
    count
}

/// The values of fields.
fn values_of(alloc: Global, fields: &[FieldPart]) -> Result<Vec<Value>, AllocError>
    ensures { IfOk result (λ values. values.items ≡ map (λ (f : Part). f.value) fields.now) }
{
    fields.iter().map(|field| field.value).collect(alloc)
}

/// The values of fields up to the last one that is set.
pub(crate) fn set_values(alloc: Global, fields: &[FieldPart]) -> Result<Listed<Value>, AllocError>
    ensures { IfOk result (λ values. values ≡ set_values fields.now) }
{
    let values = values_of(alloc, fields.split_at(set_count(fields)).0)?;
    Ok(Listed::from_vec(values))
}
