// The class of a small file and its codes, as the run works on them, and the place from which it starts. docs/machine.md
// states the start.

ghost use Rattle.std.specs.Prelude.{◌≡◌, ◌<◌, ◌≤◌, length, IfOk};
ghost use Rattle.std.specs.Option.{option_copied};
ghost use Rattle.pi_machine.specs.Codes.{code_in};
ghost use Rattle.pi_top.specs.Plain.{plain_start, blank};
ghost use Rattle.pi_top.specs.Roles.{method_named, HasMain, SeesClass};
ghost use Rattle.pi_top.specs.Seen.{view_of, plain_of};

use crate::plain::place::{Frame, Place, Small, Stage};
use pi_model::describe::{Code, MethodDesc};
use pi_model::numbers::{ClassNo, NameNo};
use pi_model::prog::Prog;
use pi_small::{CLINIT, MAIN};
use std::alloc::{AllocError, Global};

/// The class of a small file stands behind the two of the first file.
const CLASS: ClassNo = ClassNo(2);

/// The first method of a name.
fn method_of(methods: &[MethodDesc], name: NameNo) -> Option<&MethodDesc>
    ensures { option_copied result ≡ method_named name methods.now }
{
    methods.iter().find(|method| method.name.0 == name.0)
}

/// The code of the first method of a name.
fn code_of(methods: &[MethodDesc], name: NameNo) -> Option<&Code>
    ensures { option_copied result ≡ code_in (method_named name methods.now) }
{
    match method_of(methods, name) {
        Some(method) => method.code.as_ref(),
        None => None,
    }
}

/// The class of the program of a small file, with its codes.
pub fn view(prog: &Prog) -> Small<'_>
    requires class { 2 < length prog.now.classes }
    requires main { HasMain prog.now }
    ensures { SeesClass prog.now (view_of result) }
{
    let class = prog.class(CLASS);
    let methods = class.methods.as_slice();
    let Some(main) = code_of(methods, MAIN) else {
        unreachable!()
    };
    Small {
        class,
        clinit: code_of(methods, CLINIT),
        main,
    }
}

/// A frame that was not entered, of so many words.
fn blank_frame(alloc: Global, words: usize) -> Result<Frame, AllocError>
    ensures { IfOk result (λ f. f ≡ blank words) }
{
    let registers = vec![in alloc; 0; words]?;
    Ok(Frame { line: 0, registers })
}

/// The place from which a run starts: all of its memory is taken here.
pub fn start(alloc: Global, small: &Small<'_>) -> Result<Place, AllocError>
    requires { 1 ≤ small.now.main.now.regs }
    ensures { IfOk result (λ place. plain_of place ≡ plain_start (view_of small.now)) }
{
    let clinit_words = match small.clinit {
        Some(code) => code.regs as usize,
        None => 0,
    };
    let statics = small.class.fields.len();
    Ok(Place {
        stage: Stage::Untouched,
        clinit: blank_frame(alloc, clinit_words)?,
        main: blank_frame(alloc, small.main.regs as usize - 1)?,
        statics: vec![in alloc; 0; statics]?,
    })
}
