// What the fields and the methods of a class name.

ghost use Rattle.std.specs.Prelude.{length, IsTrue};
ghost use Rattle.std.specs.List.{flat_map, list_all};
ghost use Rattle.pi_model.specs.Uses.{field_below, init_below, method_below, name_below};
ghost use Rattle.pi_contents.specs.Named.{text_in, init_content, field_content, method_content};
ghost use Rattle.pi_contents.specs.Naming.{named_by_init, named_by_field, named_by_method};
ghost use Rattle.pi_dexnames.specs.Named.{Names};

use crate::codes::name_code;
use crate::named::{name_field_ref, name_method_ref, name_text, name_type};
use pi_dexpools::Pools;
use pi_dexpools::gathered::Place;
use pi_model::describe::{FieldDesc, Init, MethodDesc};
use pi_model::insn::FieldRef;
use pi_model::listed::Listed;
use pi_model::numbers::NameNo;
use pi_model::prog::Prog;
use std::alloc::{AllocError, Global};

/// Names what a static field is set to, where that is a text or a type.
#[tactic(auto, using(crate::proofs::Together::names_nothing))]
fn name_init(
    alloc: Global,
    pools: &mut Pools,
    prog: &Prog,
    init: Init,
    places: &mut Listed<Place>,
) -> Result<(), AllocError>
    requires { IsTrue (init_below (length prog.now.names) init) }
    ensures { Names result pools.old places.old pools.new places.new (named_by_init (init_content (text_in prog.now) init)) }
{
    match init {
        Init::Str(text) => name_text(alloc, pools, prog, text, places),
        Init::Cls(ty) => name_type(alloc, pools, prog, ty, places),
        Init::Zero => Ok(()),
        Init::Word(_) => Ok(()),
        Init::Long(_) => Ok(()),
    }
}

/// Names a field of a class, and what it is set to.
fn name_field(
    alloc: Global,
    pools: &mut Pools,
    prog: &Prog,
    class: NameNo,
    field: &FieldDesc,
    places: &mut Listed<Place>,
) -> Result<(), AllocError>
    requires class { IsTrue (name_below (length prog.now.names) class) }
    requires field { IsTrue (field_below (length prog.now.names) field.now) }
    ensures { Names result pools.old places.old pools.new places.new
        (named_by_field (text_in prog.now class) (field_content (text_in prog.now) field.now)) }
{
    let own = FieldRef {
        class,
        name: field.name,
        ty: field.ty,
    };
    name_field_ref(alloc, pools, prog, &own, places)?;
    name_init(alloc, pools, prog, field.init, places)
}

/// Names what each field of a class names.
pub(crate) fn name_fields(
    alloc: Global,
    pools: &mut Pools,
    prog: &Prog,
    class: NameNo,
    fields: &[FieldDesc],
    places: &mut Listed<Place>,
) -> Result<(), AllocError>
    requires class { IsTrue (name_below (length prog.now.names) class) }
    requires fields { IsTrue (list_all (field_below (length prog.now.names)) fields.now) }
    ensures { Names result pools.old places.old pools.new places.new
        (flat_map (λ f. named_by_field (text_in prog.now class) (field_content (text_in prog.now) f)) fields.now) }
{
    for field in fields {
        name_field(alloc, pools, prog, class, field, places)?;
    }
    Ok(())
}

/// Names a method of a class, and what its code names.
fn name_method(
    alloc: Global,
    pools: &mut Pools,
    prog: &Prog,
    class: NameNo,
    method: &MethodDesc,
    places: &mut Listed<Place>,
) -> Result<(), AllocError>
    requires class { IsTrue (name_below (length prog.now.names) class) }
    requires method { IsTrue (method_below (length prog.now.names) method.now) }
    ensures { Names result pools.old places.old pools.new places.new
        (named_by_method (text_in prog.now class) (method_content (text_in prog.now) method.now)) }
{
    let params = method.params.as_slice();
    name_method_ref(
        alloc,
        pools,
        prog,
        class,
        method.name,
        params,
        method.ret,
        places,
    )?;
    name_code(alloc, pools, prog, &method.code, places)
}

/// Names what each method of a class names.
pub(crate) fn name_methods(
    alloc: Global,
    pools: &mut Pools,
    prog: &Prog,
    class: NameNo,
    methods: &[MethodDesc],
    places: &mut Listed<Place>,
) -> Result<(), AllocError>
    requires class { IsTrue (name_below (length prog.now.names) class) }
    requires methods { IsTrue (list_all (method_below (length prog.now.names)) methods.now) }
    ensures { Names result pools.old places.old pools.new places.new
        (flat_map (λ m. named_by_method (text_in prog.now class) (method_content (text_in prog.now) m)) methods.now) }
{
    for method in methods {
        name_method(alloc, pools, prog, class, method, places)?;
    }
    Ok(())
}
