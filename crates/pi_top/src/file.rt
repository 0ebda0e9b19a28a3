// A file that was read: its rules, the program that it says, and the run of that program. docs/commands.md states the
// order of work.
ghost use Rattle.std.specs.Prelude.{◌≡◌, ◌≤◌, length, List, ℕ, Some};
ghost use Rattle.pi_bytes.specs.Numbers.{most_bytes};
ghost use Rattle.pi_base.specs.Outside.{Counts};
ghost use Rattle.pi_duty.specs.Duty.{LazyOwes};
ghost use Rattle.pi_top.specs.Outcome.{FileGives, NoWrite};
ghost use Rattle.pi_top.specs.Run.{ends_in_out_fault};

mod fault;

pub use crate::file::fault::FileFault;
use crate::plain::run::RunEnd;
use crate::plain::run_small;
use pi_base::outside::Sink;
use pi_dex::append;
use pi_duty::small_shape;
use pi_small::{core, is_small_program};
use std::alloc::Global;

/// Runs the program of a file behind the first one, where the file breaks no rule and the program is small for the main
/// class.
pub fn run_file<O: Sink>(
    alloc: Global,
    main: &str,
    steps: u64,
    file: &[u8],
    out: &mut O,
) -> Result<RunEnd, FileFault>
    requires { length file.now ≤ most_bytes }
    ensures gives { (name : List ℕ) → FileGives name (LazyOwes (record { file = name; main = main.now; steps = steps }) (Some file.now)) NoWrite result (O.view out.old) (O.view out.new) }
    ensures out_faults { Counts (ends_in_out_fault result) (O.view out.old).faults (O.view out.new).faults }
{
    let mut prog = core(alloc)?;
    append(alloc, &mut prog, file)?;
    if !is_small_program(&prog, main.as_bytes()) {
        return Err(FileFault::NotBuilt);
    }
    small_shape();
    Ok(run_small(alloc, &prog, steps, out)?)
}
