// Whether the names that classes use are among the first so many, and their file is the first.

ghost use Rattle.std.specs.Prelude.{◌≡◌};
ghost use Rattle.std.specs.List.{list_all};
ghost use Rattle.pi_model.specs.Uses.{field_below, method_below, class_below};
ghost use Rattle.pi_model.specs.Valid.{of_file};

use crate::codes::is_code_below;
use crate::uses::{are_names_below, is_init_below, is_name_below, is_optional_below};
use pi_model::describe::{ClassDesc, FieldDesc, MethodDesc};

/// A field that a class lists.
fn is_field_below(count: u32, field: &FieldDesc) -> bool
    ensures { result ≡ field_below count field.now }
{
    is_name_below(count, field.name)
        && is_name_below(count, field.ty)
        && is_init_below(count, field.init)
}

/// A method that a class lists.
fn is_method_below(count: u32, method: &MethodDesc) -> bool
    ensures { result ≡ method_below count method.now }
{
    is_name_below(count, method.name)
        && are_names_below(count, method.params.as_slice())
        && is_name_below(count, method.ret)
        && is_code_below(count, &method.code)
}

/// Fields that a class lists.
fn are_fields_below(count: u32, fields: &[FieldDesc]) -> bool
    ensures { result ≡ list_all (field_below count) fields.now }
{
    fields.iter().all(|field| is_field_below(count, field))
}

/// Methods that a class lists.
fn are_methods_below(count: u32, methods: &[MethodDesc]) -> bool
    ensures { result ≡ list_all (method_below count) methods.now }
{
    methods.iter().all(|method| is_method_below(count, method))
}

/// A class.
fn is_class_below(count: u32, class: &ClassDesc) -> bool
    ensures { result ≡ class_below count class.now }
{
    is_name_below(count, class.name)
        && is_optional_below(count, class.parent)
        && are_names_below(count, class.faces.as_slice())
        && are_fields_below(count, class.fields.as_slice())
        && are_methods_below(count, class.methods.as_slice())
}

/// Classes.
pub(crate) fn are_classes_below(count: u32, classes: &[ClassDesc]) -> bool
    ensures { result ≡ list_all (class_below count) classes.now }
{
    classes.iter().all(|class| is_class_below(count, class))
}

/// Classes of the first file.
pub(crate) fn are_of_first(classes: &[ClassDesc]) -> bool
    ensures { result ≡ list_all (of_file 0) classes.now }
{
    classes.iter().all(|class| class.file.0 == 0)
}
