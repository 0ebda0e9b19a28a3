// Members of a class by rising numbers.

ghost use Rattle.std.specs.Prelude.{◌≡◌, IfOk};
ghost use Rattle.pi_classtables.specs.Sorted.{arranged};
ghost use Rattle.pi_dexrows.specs.Parts.{by_field_id};
ghost use Rattle.pi_dexrows.specs.Rows.{arranged_lists, by_method_id};

use crate::fields::FieldPart;
use crate::rows::MethodLists;
use pi_dextables::tables::MethodRow;
use pi_model::listed::Listed;
use std::alloc::AllocError;

/// Fields by rising numbers; those with one number stay as they stood.
pub(crate) fn arrange_fields(fields: Vec<FieldPart>) -> Result<Vec<FieldPart>, AllocError>
    ensures { IfOk result (λ sorted. sorted.items ≡ arranged by_field_id fields.items) }
{
    let mut fields = fields;
    fields.sort_by_key(|field| field.row.id)?;
    Ok(fields)
}

/// Methods by rising numbers; those with one number stay as they stood.
fn arrange_methods(methods: Vec<MethodRow>) -> Result<Vec<MethodRow>, AllocError>
    ensures { IfOk result (λ sorted. sorted.items ≡ arranged by_method_id methods.items) }
{
    let mut methods = methods;
    methods.sort_by_key(|method| method.id)?;
    Ok(methods)
}

/// Both lists of methods by rising numbers.
pub(crate) fn arrange_lists(lists: MethodLists) -> Result<MethodLists, AllocError>
    ensures { IfOk result (λ sorted. sorted ≡ arranged_lists lists) }
{
    let directs = arrange_methods(lists.directs.into_vec())?;
    let virtuals = arrange_methods(lists.virtuals.into_vec())?;
    Ok(MethodLists {
        directs: Listed::from_vec(directs),
        virtuals: Listed::from_vec(virtuals),
    })
}
