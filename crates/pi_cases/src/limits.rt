// A sink in memory, as a row describes it.
use pi_base::mem_sink::MemSink;
use pi_rows::fault::Fault;
use pi_rows::words::numbers_of;
use std::alloc::{AllocError, Global};

/// The room of a sink, and the calls that it fails.
#[derive(Drop)]
pub(crate) struct Limits {
    room: usize,
    fails: Vec<u64>,
}

impl Limits {
    pub(crate) fn new(alloc: Global) -> Limits {
        Limits {
            room: 4096,
            fails: Vec::new(alloc),
        }
    }

    pub(crate) fn sink(&self, alloc: Global) -> Result<MemSink, AllocError> {
        MemSink::new(alloc, self.room, self.fails.as_slice())
    }
}

/// The limits that a row says: the room, and the numbers of calls.
pub(crate) fn limits_of(alloc: Global, text: &str) -> Result<Limits, Fault> {
    let (room, fails) = text.split_once(' ').unwrap_or((text, ""));
    let room = room.parse::<usize>()?;
    let fails = numbers_of::<u64>(alloc, fails)?;
    Ok(Limits { room, fails })
}
