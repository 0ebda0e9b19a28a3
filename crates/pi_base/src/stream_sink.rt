// Standard output and standard error as sinks, by one adapter over a writer. It tells no bytes:
// what reaches the system is outside the proofs. docs/outside.md states the rules.
ghost use Rattle.std.specs.Prelude.{◌≡◌, ◌<◌, ◌≤◌, length, IfOk, None};

use crate::counts::raise;
use crate::outside::{Sink, SinkError};
use std::io::{ErrorKind, Write};
use std::rt::{Stderr, Stdout};

/// A sink over a writer, which counts its faults in a `u64`.
#[derive(Drop)]
pub struct StreamSink<W> {
    writer: W,
    faults: u64,
}

/// Standard output, made by `OutSink::new(rt.stdout())`.
pub type OutSink = StreamSink<Stdout>;

/// Standard error, made by `ErrSink::new(rt.stderr())`.
pub type ErrSink = StreamSink<Stderr>;

impl<W: Write> StreamSink<W> {
    /// A sink over `writer` with no fault so far.
    pub fn new(writer: W) -> StreamSink<W>
        ensures { (⟦<StreamSink<W> as Sink>⟧.view result).faults ≡ 0 }
    {
        StreamSink { writer, faults: 0 }
    }
}

impl<W: Write> Sink for StreamSink<W> {
    ghost view = { λ sink. record { bytes = None; faults = sink.faults } };

    /// Writes once, again where a signal came first, and then flushes. A piece of which the
    /// writer takes nothing, and a failed flush, are `Failed`.
    fn write(&mut self, piece: &[u8]) -> Result<usize, SinkError> {
        let result = write_through(&mut self.writer, piece);
        if result.is_err() {
            raise(&mut self.faults);
        }
        result
    }
}

/// Hands a front of `piece` to the writer, and has it flushed.
fn write_through<W: Write>(writer: &mut W, piece: &[u8]) -> Result<usize, SinkError>
    ensures within { IfOk result (λ taken. taken ≤ length piece.now) }
    ensures progress { 0 < length piece.now → IfOk result (λ taken. 0 < taken) }
{
    let taken = write_some(writer, piece)?;
    match writer.flush() {
        Ok(()) => Ok(taken),
        Err(_) => Err(SinkError::Failed),
    }
}

fn write_some<W: Write>(writer: &mut W, piece: &[u8]) -> Result<usize, SinkError>
    ensures within { IfOk result (λ taken. taken ≤ length piece.now) }
    ensures progress { 0 < length piece.now → IfOk result (λ taken. 0 < taken) }
{
    for _ in 0..u64::MAX {
        match writer.write(piece) {
            Ok(0) if !piece.is_empty() => return Err(SinkError::Failed),
            Ok(taken) => return Ok(taken),
            Err(error) if error.kind() == ErrorKind::Interrupted => {}
            Err(_) => return Err(SinkError::Failed),
        }
    }
    Err(SinkError::Failed)
}
