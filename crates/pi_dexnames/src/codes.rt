// What the code of a method names: each of its instructions, whether it names anything or not, and then the types that its
// handlers catch.

ghost use Rattle.std.specs.Prelude.{[], ◌∷◌, length, map, option_map, IsTrue};
ghost use Rattle.std.specs.List.{flat_map, list_all};
ghost use Rattle.pi_model.specs.Uses.{catch_below, code_below, insn_below, line_below, method_ref_below};
ghost use Rattle.pi_contents.specs.Contents.{OfMethod};
ghost use Rattle.pi_contents.specs.Named.{text_in, method_name, naming_of, line_content, catch_content, code_content};
ghost use Rattle.pi_contents.specs.Naming.{named_by_line, named_by_catch, named_by_code};
ghost use Rattle.pi_dexnames.specs.Named.{Names};

use crate::named::{
    name_field_ref, name_method_ref, name_nothing, name_optional_type, name_text, name_type,
};
use pi_dexpools::Pools;
use pi_dexpools::gathered::Place;
use pi_model::describe::{Catch, Code, Line};
use pi_model::insn::{Insn, MethodRef};
use pi_model::listed::Listed;
use pi_model::prog::Prog;
use std::alloc::{AllocError, Global};

/// Names a method that is called.
fn name_called(
    alloc: Global,
    pools: &mut Pools,
    prog: &Prog,
    method: &MethodRef,
    places: &mut Listed<Place>,
) -> Result<(), AllocError>
    requires { IsTrue (method_ref_below (length prog.now.names) method.now) }
    ensures { Names result pools.old places.old pools.new places.new (OfMethod (method_name (text_in prog.now) method.now) ∷ []) }
{
    name_method_ref(
        alloc,
        pools,
        prog,
        method.class,
        method.name,
        method.params.as_slice(),
        method.ret,
        places,
    )
}

/// Names what an instruction names.
#[tactic(auto, unfolding(pi_contents::specs::Named::naming_of))]
fn name_insn(
    alloc: Global,
    pools: &mut Pools,
    prog: &Prog,
    insn: &Insn,
    places: &mut Listed<Place>,
) -> Result<(), AllocError>
    requires { IsTrue (insn_below (length prog.now.names) insn.now) }
    ensures { Names result pools.old places.old pools.new places.new (naming_of (text_in prog.now) insn.now ∷ []) }
{
    match *insn {
        Insn::ConstString { s, .. } => name_text(alloc, pools, prog, s, places),
        Insn::ConstClass { t, .. } => name_type(alloc, pools, prog, t, places),
        Insn::CheckCast { t, .. } => name_type(alloc, pools, prog, t, places),
        Insn::InstanceOf { t, .. } => name_type(alloc, pools, prog, t, places),
        Insn::NewInstance { t, .. } => name_type(alloc, pools, prog, t, places),
        Insn::NewArray { t, .. } => name_type(alloc, pools, prog, t, places),
        Insn::Filled { t, .. } => name_type(alloc, pools, prog, t, places),
        Insn::Iget { ref f, .. } => name_field_ref(alloc, pools, prog, f, places),
        Insn::Iput { ref f, .. } => name_field_ref(alloc, pools, prog, f, places),
        Insn::Sget { ref f, .. } => name_field_ref(alloc, pools, prog, f, places),
        Insn::Sput { ref f, .. } => name_field_ref(alloc, pools, prog, f, places),
        Insn::Invoke { ref m, .. } => name_called(alloc, pools, prog, m, places),
        _ => name_nothing(places),
    }
}

/// Names what each of some instructions names.
fn name_lines(
    alloc: Global,
    pools: &mut Pools,
    prog: &Prog,
    lines: &[Line],
    places: &mut Listed<Place>,
) -> Result<(), AllocError>
    requires { IsTrue (list_all (line_below (length prog.now.names)) lines.now) }
    ensures { Names result pools.old places.old pools.new places.new
        (flat_map (λ l. named_by_line (line_content (text_in prog.now) l)) lines.now) }
{
    for line in lines {
        name_insn(alloc, pools, prog, &line.insn, places)?;
    }
    Ok(())
}

/// Names the types that handlers catch.
fn name_catches(
    alloc: Global,
    pools: &mut Pools,
    prog: &Prog,
    catches: &[Catch],
    places: &mut Listed<Place>,
) -> Result<(), AllocError>
    requires { IsTrue (list_all (catch_below (length prog.now.names)) catches.now) }
    ensures { Names result pools.old places.old pools.new places.new
        (flat_map (λ c. named_by_catch (catch_content (text_in prog.now) c)) catches.now) }
{
    for catch in catches {
        name_optional_type(alloc, pools, prog, catch.ty, places)?;
    }
    Ok(())
}

/// Names what a code names, where there is one.
pub(crate) fn name_code(
    alloc: Global,
    pools: &mut Pools,
    prog: &Prog,
    code: &Option<Code>,
    places: &mut Listed<Place>,
) -> Result<(), AllocError>
    requires { IsTrue (code_below (length prog.now.names) code.now) }
    ensures { Names result pools.old places.old pools.new places.new
        (named_by_code (option_map (code_content (text_in prog.now)) code.now)) }
{
    let Some(code) = code else {
        return Ok(());
    };
    name_lines(alloc, pools, prog, code.insns.as_slice(), places)?;
    name_catches(alloc, pools, prog, code.tries.as_slice(), places)
}
