// What a class names: its own type, its superclass, its interfaces, and then what its fields and its methods name.

ghost use Rattle.std.specs.Prelude.{◌≡◌, length, IfOk, OnOk, IsTrue};
ghost use Rattle.pi_model.specs.Uses.{class_below};
ghost use Rattle.pi_contents.specs.Named.{content_in};
ghost use Rattle.pi_contents.specs.Naming.{named_by_class};
ghost use Rattle.pi_dexpools.specs.Gathered.{gathered, places_of, IsGrown};
ghost use Rattle.pi_dexnames.specs.Named.{Names, named_by_heading, named_by_members};

use crate::members::{name_fields, name_methods};
use crate::named::{name_optional_type, name_type, name_types};
use pi_dexpools::Pools;
use pi_dexpools::gathered::Place;
use pi_model::describe::ClassDesc;
use pi_model::listed::Listed;
use pi_model::prog::Prog;
use std::alloc::{AllocError, Global};

/// Names what stands in the heading of a class: its own type, its superclass and its interfaces.
fn name_heading(
    alloc: Global,
    pools: &mut Pools,
    prog: &Prog,
    class: &ClassDesc,
    places: &mut Listed<Place>,
) -> Result<(), AllocError>
    requires { IsTrue (class_below (length prog.now.names) class.now) }
    ensures { Names result pools.old places.old pools.new places.new (named_by_heading (content_in prog.now class.now)) }
{
    name_type(alloc, pools, prog, class.name, places)?;
    name_optional_type(alloc, pools, prog, class.parent, places)?;
    name_types(alloc, pools, prog, class.faces.as_slice(), places)
}

/// Names what the fields of a class name, and then what its methods name.
fn name_members(
    alloc: Global,
    pools: &mut Pools,
    prog: &Prog,
    class: &ClassDesc,
    places: &mut Listed<Place>,
) -> Result<(), AllocError>
    requires { IsTrue (class_below (length prog.now.names) class.now) }
    ensures { Names result pools.old places.old pools.new places.new (named_by_members (content_in prog.now class.now)) }
{
    let fields = class.fields.as_slice();
    name_fields(alloc, pools, prog, class.name, fields, places)?;
    let methods = class.methods.as_slice();
    name_methods(alloc, pools, prog, class.name, methods, places)
}

/// Names all that a class names.
fn name_parts(
    alloc: Global,
    pools: &mut Pools,
    prog: &Prog,
    class: &ClassDesc,
    places: &mut Listed<Place>,
) -> Result<(), AllocError>
    requires { IsTrue (class_below (length prog.now.names) class.now) }
    ensures { Names result pools.old places.old pools.new places.new (named_by_class (content_in prog.now class.now)) }
{
    name_heading(alloc, pools, prog, class, places)?;
    name_members(alloc, pools, prog, class, places)
}

/// Adds what a class names to the pools, and tells where each thing stands, in the order in which the class names it. After a
/// refusal the pools may hold some of it.
pub fn name_class(
    alloc: Global,
    pools: &mut Pools,
    prog: &Prog,
    class: &ClassDesc,
) -> Result<Listed<Place>, AllocError>
    requires { IsTrue (class_below (length prog.now.names) class.now) }
    ensures gathered { OnOk result (pools.new ≡ gathered pools.old (named_by_class (content_in prog.now class.now))) }
    ensures places { IfOk result (λ places. places ≡ places_of pools.old (named_by_class (content_in prog.now class.now))) }
    ensures grown { IsGrown pools.old pools.new }
{
    let mut places = Listed::new(alloc);
    name_parts(alloc, pools, prog, class, &mut places)?;
    Ok(places)
}
