// What the system reads from and writes to: stores, sinks and statuses. The rows that set something up tell nothing:
//
//   memory CALL..              an empty store in memory, and its calls that fail
//   files                      the files of the system as a store: NAME is one of this process in the folder for temporary
//                              files, and . is that folder
//   put NAME TEXT TIMES        puts so many times TEXT into the store in memory, which is no call
//   remove NAME                removes a file of the system
//   sink ROOM CALL..           a sink in memory with this room, and its calls that fail
//   moody COUNT MOST FAULT     a sink over a writer that is interrupted so often, then takes at most so many bytes at a time,
//                              and is at fault never, at write or at flush
//   device PATH                a sink over a device; one that is not there takes nothing
//   stdout, stderr             a sink over a stream of the system
//
// And those that tell an answer:
//
//   get NAME                   the content in the store in memory
//   read NAME LIMIT            what is read from the store
//   write NAME TEXT TIMES      writes so many times TEXT into the store
//   piece TEXT TIMES           hands so many times TEXT to the sink once
//   whole TEXT TIMES           hands all of it
//   bytes                      what the sink in memory has
//   statuses                   each status with its number
//
// TIMES may be left out. A content is told as text, a long one by its length and digest.
use crate::sinks::{Taker, sink_of};
use crate::stores::{Contents, remove};
use pi_base::mem_store::MemStore;
use pi_base::status::Status;
use pi_rows::fault::Fault;
use pi_rows::follow::Subject;
use pi_rows::told::Told;
use pi_rows::words::{copies, halves, numbers_of, text_of, word_of};
use std::alloc::Global;

/// The store and the sink that rows have described.
#[derive(Drop)]
pub(crate) struct Outside {
    store: Contents,
    sink: Taker,
}

/// The statuses, in the order of their numbers.
const STATUSES: [Status; 23] = [
    Status::Done,
    Status::Uncaught,
    Status::Usage,
    Status::Missing,
    Status::ReadFault,
    Status::WriteFault,
    Status::Dex,
    Status::Verify,
    Status::Link,
    Status::Image,
    Status::Bases,
    Status::Job,
    Status::Asm,
    Status::Steps,
    Status::Heap,
    Status::Frames,
    Status::OutFault,
    Status::TooLarge,
    Status::Memory,
    Status::NotBuilt,
    Status::Unprintable,
    Status::Rebase,
    Status::Differs,
];

/// The most bytes of a content that are told.
const MOST_TOLD: usize = 64;

impl Outside {
    /// The files of the system, and no sink.
    pub(crate) fn new() -> Outside {
        Outside {
            store: Contents::Files,
            sink: Taker::Absent,
        }
    }

    /// The store in memory.
    fn memory(&mut self) -> Result<&mut MemStore, Fault> {
        match &mut self.store {
            Contents::Memory(store) => Ok(store),
            Contents::Files => Err(Fault::NoRow),
        }
    }

    fn put(&mut self, alloc: Global, rest: &str) -> Result<(), Fault> {
        let (name, content) = halves(rest)?;
        let (name, bytes) = (word_of(alloc, name)?, content_of(alloc, content)?);
        self.memory()?.put(alloc, name.as_str(), bytes.as_slice())?;
        Ok(())
    }

    fn get(&mut self, told: &mut Told, alloc: Global, rest: &str) -> Result<(), Fault> {
        let name = word_of(alloc, rest)?;
        match self.memory()?.get(name.as_str()) {
            Some(bytes) => add_content(told, bytes),
            None => told.words("not there"),
        }
    }

    fn read(&mut self, told: &mut Told, rt: &HostRuntime, rest: &str) -> Result<(), Fault> {
        let (name, limit) = halves(rest)?;
        let name = word_of(rt.alloc(), name)?;
        match self.store.read(rt, name.as_str(), limit.parse::<usize>()?)? {
            Ok(found) => add_content(told, found.as_slice()),
            Err(error) => told.debug(&error),
        }
    }

    fn write(&mut self, told: &mut Told, rt: &HostRuntime, rest: &str) -> Result<(), Fault> {
        let (name, content) = halves(rest)?;
        let name = word_of(rt.alloc(), name)?;
        let bytes = content_of(rt.alloc(), content)?;
        match self.store.write(rt, name.as_str(), bytes.as_slice())? {
            Ok(()) => told.words("written"),
            Err(error) => told.debug(&error),
        }
    }

    fn hand_once(&mut self, told: &mut Told, piece: &[u8]) -> Result<(), Fault> {
        match self.sink.write(piece) {
            Ok(taken) => {
                told.words("took ")?;
                told.value(&taken)
            }
            Err(error) => told.debug(&error),
        }
    }

    fn hand_all(&mut self, told: &mut Told, piece: &[u8]) -> Result<(), Fault> {
        match self.sink.put(piece) {
            Ok(()) => told.words("took all"),
            Err(error) => told.debug(&error),
        }
    }
}

impl Subject for Outside {
    fn follow(
        &mut self,
        rt: &HostRuntime,
        verb: &str,
        rest: &str,
        told: &mut Told,
    ) -> Result<(), Fault> {
        let alloc = rt.alloc();
        match verb {
            "memory" => {
                let fails = numbers_of::<u64>(alloc, rest)?;
                self.store = Contents::Memory(MemStore::new(alloc, fails.as_slice())?);
            }
            "files" => self.store = Contents::Files,
            "put" => self.put(alloc, rest)?,
            "remove" => remove(rt, rest)?,
            "get" => self.get(told, alloc, rest)?,
            "read" => self.read(told, rt, rest)?,
            "write" => self.write(told, rt, rest)?,
            "piece" => self.hand_once(told, content_of(alloc, rest)?.as_slice())?,
            "whole" => self.hand_all(told, content_of(alloc, rest)?.as_slice())?,
            "bytes" => match &self.sink {
                Taker::Memory(sink) => add_content(told, sink.bytes())?,
                _ => return Err(Fault::NoRow),
            },
            "statuses" => add_statuses(told)?,
            _ => self.sink = sink_of(rt, verb, rest)?,
        }
        Ok(())
    }
}

/// A text, so many times if a number says so.
fn content_of(alloc: Global, content: &str) -> Result<Vec<u8>, Fault> {
    let (text, times) = content.split_once(' ').unwrap_or((content, "1"));
    let text = text_of(alloc, text)?;
    copies(alloc, times.parse::<u64>()?, text.as_slice())
}

/// Adds a content in brackets, or the length and the digest of a long one.
fn add_content(told: &mut Told, bytes: &[u8]) -> Result<(), Fault> {
    if bytes.len() > MOST_TOLD {
        return told.digest(bytes);
    }
    told.words("[")?;
    told.bytes(bytes)?;
    told.words("]")
}

fn add_statuses(told: &mut Told) -> Result<(), Fault> {
    for status in STATUSES.iter() {
        told.line_of("status", status)?;
        told.words(": ")?;
        told.value(&status.code())?;
    }
    Ok(())
}
