// The sinks that rows write into.
use crate::limits::limits_of;
use crate::moody::{Fails, Moody};
use pi_base::mem_sink::MemSink;
use pi_base::outside::{Sink, SinkError};
use pi_base::put::put_all;
use pi_base::stream_sink::{ErrSink, OutSink, StreamSink};
use pi_rows::fault::Fault;
use pi_rows::words::halves;
use std::fs::File;

/// What takes pieces.
#[derive(Drop)]
pub(crate) enum Taker {
    Memory(MemSink),
    Moody(StreamSink<Moody>),
    Device(StreamSink<File>),
    /// A device that the machine has not, and that takes nothing.
    Absent,
    Out(OutSink),
    Err(ErrSink),
}

impl Taker {
    /// Hands it a piece once.
    pub(crate) fn write(&mut self, piece: &[u8]) -> Result<usize, SinkError> {
        match self {
            Taker::Memory(sink) => sink.write(piece),
            Taker::Moody(sink) => sink.write(piece),
            Taker::Device(sink) => sink.write(piece),
            Taker::Absent => Err(SinkError::Failed),
            Taker::Out(sink) => sink.write(piece),
            Taker::Err(sink) => sink.write(piece),
        }
    }

    /// Hands it a whole piece.
    pub(crate) fn put(&mut self, piece: &[u8]) -> Result<(), SinkError> {
        match self {
            Taker::Memory(sink) => put_all(sink, piece),
            Taker::Moody(sink) => put_all(sink, piece),
            Taker::Device(sink) => put_all(sink, piece),
            Taker::Absent => Err(SinkError::Failed),
            Taker::Out(sink) => put_all(sink, piece),
            Taker::Err(sink) => put_all(sink, piece),
        }
    }
}

/// The sink that a row describes.
pub(crate) fn sink_of(rt: &HostRuntime, verb: &str, rest: &str) -> Result<Taker, Fault> {
    let alloc = rt.alloc();
    match verb {
        "sink" => Ok(Taker::Memory(limits_of(alloc, rest)?.sink(alloc)?)),
        "moody" => moody_sink(rest),
        "device" => Ok(device(rt, rest)),
        "stdout" => Ok(Taker::Out(OutSink::new(rt.stdout()))),
        "stderr" => Ok(Taker::Err(ErrSink::new(rt.stderr()))),
        _ => Err(Fault::NoRow),
    }
}

fn moody_sink(rest: &str) -> Result<Taker, Fault> {
    let (interrupts, rest) = halves(rest)?;
    let (most, fault) = halves(rest)?;
    let fault = match fault {
        "never" => Fails::Never,
        "write" => Fails::AtWrite,
        "flush" => Fails::AtFlush,
        _ => return Err(Fault::NoRow),
    };
    Ok(Taker::Moody(StreamSink::new(Moody {
        interrupts: interrupts.parse::<u8>()?,
        most: most.parse::<usize>()?,
        fault,
    })))
}

fn device(rt: &HostRuntime, path: &str) -> Taker {
    match File::options().write(true).open(rt, path) {
        Ok(device) => Taker::Device(StreamSink::new(device)),
        Err(_) => Taker::Absent,
    }
}
