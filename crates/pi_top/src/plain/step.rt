// One step of the plain run. docs/machine.md states the moves.

ghost use Rattle.std.specs.Prelude.{◌≡◌, ◌≢◌, ◌<◌, length, IfOk, OnOk, OnErr, is_err};
ghost use Rattle.pi_base.specs.Outside.{Puts};
ghost use Rattle.pi_top.specs.Plain.{effect_at, frame_after, plain_step, plain_move, stage_after_values, FrameFits, Fits};
ghost use Rattle.pi_top.specs.Seen.{view_of, plain_of};

use crate::plain::place::{Frame, Place, Small, Stage};
use crate::plain::row::perform;
use pi_base::outside::{Sink, SinkError};
use pi_model::describe::{ClassDesc, Code};

/// Does the next instruction of a frame, and says whether it returned.
fn advance<O: Sink>(
    class: &ClassDesc,
    code: &Code,
    frame: &mut Frame,
    statics: &mut [u32],
    out: &mut O,
) -> Result<bool, SinkError>
    requires fits { FrameFits class.now code.now frame.old }
    requires statics { length statics.old ≡ length class.now.fields }
    ensures frame { OnOk result (frame.new ≡ frame_after (effect_at class.now code.now frame.old statics.old) frame.old) }
    ensures statics { OnOk result (statics.new ≡ (effect_at class.now code.now frame.old statics.old).statics) }
    ensures returns { IfOk result (λ r. r ≡ (effect_at class.now code.now frame.old statics.old).returns) }
    ensures puts { Puts (effect_at class.now code.now frame.old statics.old).printed result (O.view out.old) (O.view out.new) }
{
    let count = code.insns.len();
    prove!(frame.line < count);
    let line = code.insns.at(frame.line);
    let returned = perform(
        class,
        &line.insn,
        frame.registers.as_mut_slice(),
        statics,
        out,
    )?;
    if !returned {
        frame.line += 1;
    }
    Ok(returned)
}

/// Makes one step of a run that is not over.
pub fn step<O: Sink>(small: &Small<'_>, place: &mut Place, out: &mut O) -> Result<(), SinkError>
    requires goes { place.old.stage ≢ Stage.Over }
    requires fits { Fits (view_of small.now) (plain_of place.old) }
    ensures state { OnOk result (plain_of place.new ≡ (plain_step (view_of small.now) (plain_of place.old)).state) }
    ensures puts { Puts (plain_step (view_of small.now) (plain_of place.old)).printed result (O.view out.old) (O.view out.new) }
{
    match place.stage {
        Stage::Untouched => place.stage = Stage::Entered,
        Stage::Entered => place.stage = Stage::Valued,
        Stage::Valued => place.stage = after_values(small),
        Stage::Initialising => initialise(small, place, out)?,
        Stage::Finishing => place.stage = Stage::Ready,
        Stage::Ready => place.stage = Stage::Running,
        Stage::Running => go_on(small, place, out)?,
        Stage::Over => unreachable!(),
    }
    Ok(())
}

/// The stage behind the static values: the initialiser is called, if there is one.
fn after_values(small: &Small<'_>) -> Stage
    ensures { result ≡ stage_after_values (view_of small.now).clinit }
{
    match small.clinit {
        Some(_) => Stage::Initialising,
        None => Stage::Ready,
    }
}

/// Does an instruction of the initialiser.
fn initialise<O: Sink>(small: &Small<'_>, place: &mut Place, out: &mut O) -> Result<(), SinkError>
    requires stage { place.old.stage ≡ Stage.Initialising }
    requires fits { Fits (view_of small.now) (plain_of place.old) }
    ensures state { OnOk result (plain_of place.new ≡ (plain_move (view_of small.now) (plain_of place.old) Stage.Initialising).state) }
    ensures puts { Puts (plain_move (view_of small.now) (plain_of place.old) Stage.Initialising).printed result (O.view out.old) (O.view out.new) }
{
    let Some(code) = small.clinit else {
        unreachable!()
    };
    if advance(
        small.class,
        code,
        &mut place.clinit,
        place.statics.as_mut_slice(),
        out,
    )? {
        place.stage = Stage::Finishing;
    }
    Ok(())
}

/// Does an instruction of main.
fn go_on<O: Sink>(small: &Small<'_>, place: &mut Place, out: &mut O) -> Result<(), SinkError>
    requires stage { place.old.stage ≡ Stage.Running }
    requires fits { Fits (view_of small.now) (plain_of place.old) }
    ensures state { OnOk result (plain_of place.new ≡ (plain_move (view_of small.now) (plain_of place.old) Stage.Running).state) }
    ensures puts { Puts (plain_move (view_of small.now) (plain_of place.old) Stage.Running).printed result (O.view out.old) (O.view out.new) }
{
    if advance(
        small.class,
        small.main,
        &mut place.main,
        place.statics.as_mut_slice(),
        out,
    )? {
        place.stage = Stage::Over;
    }
    Ok(())
}
