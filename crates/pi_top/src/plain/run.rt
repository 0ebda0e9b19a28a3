// The whole plain run, under a limit on its steps. docs/machine.md states how runs end.

ghost use Rattle.std.specs.Prelude.{◌≡◌, ◌<◌, []};
ghost use Rattle.pi_base.specs.Outside.{Counts};
ghost use Rattle.pi_machine.specs.Ends.{Finish};
ghost use Rattle.pi_top.specs.Plain.{is_over, PlainEnds, Fits};
ghost use Rattle.pi_top.specs.Run.{AnswersRun, is_out_fault};
ghost use Rattle.pi_top.specs.Seen.{view_of, plain_of};

use crate::plain::place::{Place, Small, Stage};
use crate::plain::step::step;
use pi_base::outside::Sink;

/// How a run ended, with the number of steps that it made.
#[derive(Clone, Copy, PartialEq, Eq)]
pub enum RunEnd {
    /// Main returned.
    Returned { steps: u64 },
    /// The limit on steps was met.
    Limited { steps: u64 },
    /// The output did not take a piece.
    OutFault,
}

/// Whether main has returned.
fn has_returned(stage: Stage) -> bool
    ensures { result ≡ is_over stage }
{
    matches!(stage, Stage::Over)
}

/// Makes steps until the run is over or so many are made.
pub fn run<O: Sink>(small: &Small<'_>, place: &mut Place, limit: u64, out: &mut O) -> RunEnd
    requires fits { Fits (view_of small.now) (plain_of place.old) }
    ensures ends { (f : Finish) × (PlainEnds (view_of small.now) limit (plain_of place.old) 0 [] f × AnswersRun result f (O.view out.old) (O.view out.new)) }
    ensures faults { Counts (is_out_fault result) (O.view out.old).faults (O.view out.new).faults }
{
    let mut made = 0;
    'steps: while !has_returned(place.stage) {
        if made == limit {
            return RunEnd::Limited { steps: made };
        }
        match step(small, place, out) {
            Ok(()) => made += 1,
            Err(_) => return RunEnd::OutFault,
        }
    }
    RunEnd::Returned { steps: made }
}
