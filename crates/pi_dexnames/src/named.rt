// Single things that are named, each with its place behind those that were told before.

ghost use Rattle.std.specs.Prelude.{[], ◌∷◌, List, length, map, option_map, IsTrue};
ghost use Rattle.std.specs.List.{flat_map};
ghost use Rattle.pi_model.specs.Uses.{field_ref_below, name_below, names_below, optional_below};
ghost use Rattle.pi_contents.specs.Contents.{NoName, OfText, OfType, OfField, OfMethod};
ghost use Rattle.pi_contents.specs.Named.{text_in, field_name, prototype};
ghost use Rattle.pi_contents.specs.Naming.{named_by_type};
ghost use Rattle.pi_dexpools.specs.declared.gathered.Gathered.{Gathered};
ghost use Rattle.pi_dexnames.specs.Named.{Names};

use pi_dexpools::Pools;
use pi_dexpools::gathered::Place;
use pi_model::insn::FieldRef;
use pi_model::listed::Listed;
use pi_model::numbers::NameNo;
use pi_model::prog::Prog;
use std::alloc::{AllocError, Global};

/// Names nothing, which has a place too.
#[tactic(auto, using(crate::proofs::Grown::grown_itself))]
pub(crate) fn name_nothing(places: &mut Listed<Place>) -> Result<(), AllocError>
    ensures { (pools : Gathered) → Names result pools places.old pools places.new (NoName ∷ []) }
{
    places.push(Place::Nothing)
}

/// Names a text.
pub(crate) fn name_text(
    alloc: Global,
    pools: &mut Pools,
    prog: &Prog,
    name: NameNo,
    places: &mut Listed<Place>,
) -> Result<(), AllocError>
    requires { IsTrue (name_below (length prog.now.names) name) }
    ensures { Names result pools.old places.old pools.new places.new (OfText (text_in prog.now name) ∷ []) }
{
    let place = pools.text(alloc, prog, name)?;
    places.push(place)
}

/// Names a type.
pub(crate) fn name_type(
    alloc: Global,
    pools: &mut Pools,
    prog: &Prog,
    name: NameNo,
    places: &mut Listed<Place>,
) -> Result<(), AllocError>
    requires { IsTrue (name_below (length prog.now.names) name) }
    ensures { Names result pools.old places.old pools.new places.new (OfType (text_in prog.now name) ∷ []) }
{
    let place = pools.ty(alloc, prog, name)?;
    places.push(place)
}

/// Names a field.
pub(crate) fn name_field_ref(
    alloc: Global,
    pools: &mut Pools,
    prog: &Prog,
    field: &FieldRef,
    places: &mut Listed<Place>,
) -> Result<(), AllocError>
    requires { IsTrue (field_ref_below (length prog.now.names) field.now) }
    ensures { Names result pools.old places.old pools.new places.new (OfField (field_name (text_in prog.now) field.now) ∷ []) }
{
    let place = pools.field(alloc, prog, field)?;
    places.push(place)
}

/// Names a method.
pub(crate) fn name_method_ref(
    alloc: Global,
    pools: &mut Pools,
    prog: &Prog,
    class: NameNo,
    name: NameNo,
    params: &[NameNo],
    ret: NameNo,
    places: &mut Listed<Place>,
) -> Result<(), AllocError>
    requires class { IsTrue (name_below (length prog.now.names) class) }
    requires name { IsTrue (name_below (length prog.now.names) name) }
    requires params { IsTrue (names_below (length prog.now.names) params.now) }
    requires ret { IsTrue (name_below (length prog.now.names) ret) }
    ensures { Names result pools.old places.old pools.new places.new
        (OfMethod (record { class = text_in prog.now class; name = text_in prog.now name; proto = prototype (text_in prog.now) params.now ret }) ∷ []) }
{
    let place = pools.method(alloc, prog, class, name, params, ret)?;
    places.push(place)
}

/// Names a type that may be missing.
#[tactic(auto, using(crate::proofs::Together::names_nothing))]
pub(crate) fn name_optional_type(
    alloc: Global,
    pools: &mut Pools,
    prog: &Prog,
    name: Option<NameNo>,
    places: &mut Listed<Place>,
) -> Result<(), AllocError>
    requires { IsTrue (optional_below (length prog.now.names) name) }
    ensures { Names result pools.old places.old pools.new places.new (named_by_type (option_map (text_in prog.now) name)) }
{
    match name {
        Some(name) => name_type(alloc, pools, prog, name, places),
        None => Ok(()),
    }
}

/// Names each of some types.
pub(crate) fn name_types(
    alloc: Global,
    pools: &mut Pools,
    prog: &Prog,
    types: &[NameNo],
    places: &mut Listed<Place>,
) -> Result<(), AllocError>
    requires { IsTrue (names_below (length prog.now.names) types.now) }
    ensures { Names result pools.old places.old pools.new places.new (flat_map (λ ty. OfType (text_in prog.now ty) ∷ []) types.now) }
{
    for ty in types {
        name_type(alloc, pools, prog, *ty, places)?;
    }
    Ok(())
}
