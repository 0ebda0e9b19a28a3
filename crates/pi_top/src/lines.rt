// The lines that tell on the error sink how a command ended. None takes memory, and nothing is written after a fault.
// docs/commands.md states the lines.
ghost use Rattle.std.specs.Prelude.{◌++◌, decimal};
ghost use Rattle.pi_duty.specs.Lines.{dex_line, line, made_line, place_line, rule_line, step_limit_line};
ghost use Rattle.pi_base.specs.Outside.{Puts, Told};

use itoa::Buffer;
use pi_base::outside::{Sink, SinkError};
use pi_base::put::put_all;

/// Tells a whole line.
#[tactic(auto, using(pi_base::proofs::Taken::told_of_puts))]
pub(crate) fn tell<E: Sink>(err: &mut E, text: &[u8])
    ensures { Told text.now (E.view err.old) (E.view err.new) }
{
    let _ = put(err, text);
}

/// Tells a line of a name: what is told of it, and the name.
pub(crate) fn tell_name<E: Sink>(err: &mut E, prefix: &[u8], name: &str)
    ensures { Told (prefix.now ++ line name.now) (E.view err.old) (E.view err.new) }
{
    let _ = put_three(err, prefix, name.as_bytes(), b"\n");
}

/// Tells that a file breaks a rule, at an offset.
#[tactic(auto, using(pi_base::proofs::Taken::told_of_puts))]
pub(crate) fn tell_broken<E: Sink>(err: &mut E, name: &str, rule: u8, at: u32)
    ensures { Told (dex_line name.now rule at) (E.view err.old) (E.view err.new) }
{
    let _ = put_broken(err, name.as_bytes(), rule, at);
}

fn put_broken<E: Sink>(err: &mut E, name: &[u8], rule: u8, at: u32) -> Result<(), SinkError>
    ensures { Puts (dex_line name.now rule at) result (E.view err.old) (E.view err.new) }
{
    put_two(err, b"dex ", name)?;
    put_rule(err, rule, at)
}

fn put_rule<E: Sink>(err: &mut E, rule: u8, at: u32) -> Result<(), SinkError>
    ensures { Puts (rule_line rule at) result (E.view err.old) (E.view err.new) }
{
    put_number(err, b": rule ", rule as u64)?;
    put_place(err, at)
}

fn put_place<E: Sink>(err: &mut E, at: u32) -> Result<(), SinkError>
    ensures { Puts (place_line at) result (E.view err.old) (E.view err.new) }
{
    put_number(err, b" at ", at as u64)?;
    put(err, b"\n")
}

fn put_number<E: Sink>(err: &mut E, prefix: &[u8], number: u64) -> Result<(), SinkError>
    ensures { Puts (prefix.now ++ decimal number) result (E.view err.old) (E.view err.new) }
{
    let mut buffer = Buffer::new();
    put_two(err, prefix, buffer.format(number).as_bytes())
}

/// Tells how many steps a run made.
#[tactic(auto, using(pi_base::proofs::Taken::told_of_puts))]
pub(crate) fn tell_made<E: Sink>(err: &mut E, steps: u64)
    ensures { Told (made_line steps) (E.view err.old) (E.view err.new) }
{
    let _ = put_made(err, steps);
}

/// Tells that a run met its limit on steps, and how many it made.
#[tactic(auto, using(pi_base::proofs::Taken::told_of_puts))]
pub(crate) fn tell_limit<E: Sink>(err: &mut E, steps: u64)
    ensures { Told (step_limit_line ++ made_line steps) (E.view err.old) (E.view err.new) }
{
    let _ = put_limit(err, steps);
}

fn put_limit<E: Sink>(err: &mut E, steps: u64) -> Result<(), SinkError>
    ensures { Puts (step_limit_line ++ made_line steps) result (E.view err.old) (E.view err.new) }
{
    put(err, b"limit steps\n")?;
    put_made(err, steps)
}

fn put_made<E: Sink>(err: &mut E, steps: u64) -> Result<(), SinkError>
    ensures { Puts (made_line steps) result (E.view err.old) (E.view err.new) }
{
    let mut buffer = Buffer::new();
    put_three(err, b"made ", buffer.format(steps).as_bytes(), b" steps\n")
}

fn put_three<E: Sink>(
    err: &mut E,
    first: &[u8],
    second: &[u8],
    third: &[u8],
) -> Result<(), SinkError>
    ensures { Puts (first.now ++ second.now ++ third.now) result (E.view err.old) (E.view err.new) }
{
    put_two(err, first, second)?;
    put(err, third)
}

fn put_two<E: Sink>(err: &mut E, first: &[u8], second: &[u8]) -> Result<(), SinkError>
    ensures { Puts (first.now ++ second.now) result (E.view err.old) (E.view err.new) }
{
    put(err, first)?;
    put(err, second)
}

fn put<E: Sink>(err: &mut E, piece: &[u8]) -> Result<(), SinkError>
    ensures { Puts piece.now result (E.view err.old) (E.view err.new) }
{
    put_all(err, piece)
}
