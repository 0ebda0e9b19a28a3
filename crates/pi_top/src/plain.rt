// The plain run of a small file: the moves of its one class, and its two codes instruction by instruction. It takes no
// memory once it has begun. docs/machine.md states the moves and the instructions.

ghost use Rattle.std.specs.Prelude.{◌≡◌, ℕ, List, IfOk, OnErr};
ghost use Rattle.pi_base.specs.Outside.{Counts};
ghost use Rattle.pi_duty.specs.Shape.{IsSmall};
ghost use Rattle.pi_machine.specs.Ends.{Finish};
ghost use Rattle.pi_top.specs.SmallCall.{RunEnds};
ghost use Rattle.pi_top.specs.Run.{AnswersRun, ends_in_out_fault};

mod place;
mod row;
pub mod run;
mod step;
mod view;

use crate::plain::run::{RunEnd, run};
use crate::plain::view::{start, view};
use pi_base::outside::Sink;
use pi_model::prog::Prog;
use std::alloc::{AllocError, Global};

/// Runs the program of a small file, for the main class for which it is small, until main has returned or `steps` steps
/// are made. All memory is taken before the first step.
pub fn run_small<O: Sink>(
    alloc: Global,
    prog: &Prog,
    steps: u64,
    out: &mut O,
) -> Result<RunEnd, AllocError>
    requires { (main : List ℕ) × IsSmall main prog.now }
    ensures ends { (main : List ℕ) → IsSmall main prog.now → IfOk result (λ end. (f : Finish) × (RunEnds prog.now main steps f × AnswersRun end f (O.view out.old) (O.view out.new))) }
    ensures memory { OnErr result (O.view out.new ≡ O.view out.old) }
    ensures faults { Counts (ends_in_out_fault result) (O.view out.old).faults (O.view out.new).faults }
{
    let small = view(prog);
    let mut place = start(alloc, &small)?;
    Ok(run(&small, &mut place, steps, out))
}
