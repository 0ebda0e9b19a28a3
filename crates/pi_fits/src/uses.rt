// Whether the names that single things use are among the first so many.

ghost use Rattle.std.specs.Prelude.{◌≡◌};
ghost use Rattle.pi_model.specs.Uses.{name_below, names_below, optional_below, field_ref_below, method_ref_below, init_below};

use pi_model::describe::Init;
use pi_model::insn::{FieldRef, MethodRef};
use pi_model::numbers::NameNo;

/// A name.
pub(crate) fn is_name_below(count: u32, name: NameNo) -> bool
    ensures { result ≡ name_below count name }
{
    name.0 < count
}

/// Names.
pub(crate) fn are_names_below(count: u32, names: &[NameNo]) -> bool
    ensures { result ≡ names_below count names.now }
{
    names.iter().all(|name| is_name_below(count, *name))
}

/// A name, where there is one.
pub(crate) fn is_optional_below(count: u32, name: Option<NameNo>) -> bool
    ensures { result ≡ optional_below count name }
{
    match name {
        Some(name) => is_name_below(count, name),
        None => true,
    }
}

/// A field.
pub(crate) fn is_field_ref_below(count: u32, field: &FieldRef) -> bool
    ensures { result ≡ field_ref_below count field.now }
{
    is_name_below(count, field.class)
        && is_name_below(count, field.name)
        && is_name_below(count, field.ty)
}

/// A method.
pub(crate) fn is_method_ref_below(count: u32, method: &MethodRef) -> bool
    ensures { result ≡ method_ref_below count method.now }
{
    is_name_below(count, method.class)
        && is_name_below(count, method.name)
        && are_names_below(count, method.params.as_slice())
        && is_name_below(count, method.ret)
}

/// What a field is set to.
pub(crate) fn is_init_below(count: u32, init: Init) -> bool
    ensures { result ≡ init_below count init }
{
    match init {
        Init::Str(name) => is_name_below(count, name),
        Init::Cls(name) => is_name_below(count, name),
        Init::Zero => true,
        Init::Word(_) => true,
        Init::Long(_) => true,
    }
}
