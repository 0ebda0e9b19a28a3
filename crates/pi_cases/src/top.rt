// The top call over forms in memory. Beside the rows on files (the files of the store):
//
//   case                  no words, no files, nothing fails
//   words WORD..          the words of the call
//   store CALL..          the calls of the store that fail
//   out ROOM CALL..       the room of the output, and its calls that fail
//   err ROOM CALL..       of the error stream
//   show NAME..           contents that are told behind the call
//   run                   makes the call, and tells it
//   again                 makes it over the store that the last call left
//   first MAIN            tells the first file of a chain, and whether that file alone is small for this main class
//
// A row stands until another of its kind. What is told is the status, the output, the lines on the error stream, and the
// length and digest of each content that is asked for.
use crate::first::add_first_file;
use crate::limits::{Limits, limits_of};
use pi_base::mem_sink::MemSink;
use pi_base::mem_store::MemStore;
use pi_rows::fault::Fault;
use pi_rows::files::{Named, follow_file};
use pi_rows::follow::Subject;
use pi_rows::told::Told;
use pi_rows::words::{numbers_of, words_of};
use pi_top::tool;
use sha1::Sha1;
use std::alloc::{AllocError, Global};

/// The call that rows have described.
#[derive(Drop)]
pub(crate) struct Top {
    words: Vec<String>,
    files: Vec<Named>,
    /// The names whose contents are told behind the call.
    shown: Vec<String>,
    fails: Vec<u64>,
    out: Limits,
    err: Limits,
    /// As the last call left it.
    left: Option<MemStore>,
}

impl Top {
    /// No words and no files; nothing fails.
    pub(crate) fn new(alloc: Global) -> Top {
        Top {
            words: Vec::new(alloc),
            files: Vec::new(alloc),
            shown: Vec::new(alloc),
            fails: Vec::new(alloc),
            out: Limits::new(alloc),
            err: Limits::new(alloc),
            left: None,
        }
    }

    fn store(&self, alloc: Global) -> Result<MemStore, AllocError> {
        let mut store = MemStore::new(alloc, self.fails.as_slice())?;
        for file in self.files.iter() {
            store.put(alloc, file.name.as_str(), file.bytes.as_slice())?;
        }
        Ok(store)
    }

    /// Makes the call over a store, and adds what it did.
    fn run(&mut self, told: &mut Told, alloc: Global, mut store: MemStore) -> Result<(), Fault> {
        let mut out = self.out.sink(alloc)?;
        let mut err = self.err.sink(alloc)?;
        told.value(&call(alloc, &self.words, &mut store, &mut out, &mut err))?;
        told.words(" [")?;
        told.bytes(out.bytes())?;
        told.words("] [")?;
        told.bytes(err.bytes())?;
        told.words("]")?;
        add_contents(told, &store, &self.shown)?;
        self.left = Some(store);
        Ok(())
    }
}

impl Subject for Top {
    fn follow(
        &mut self,
        rt: &HostRuntime,
        verb: &str,
        rest: &str,
        told: &mut Told,
    ) -> Result<(), Fault> {
        let alloc = rt.alloc();
        match verb {
            "case" => *self = Top::new(alloc),
            "run" => {
                let store = self.store(alloc)?;
                self.run(told, alloc, store)?;
            }
            "again" => {
                let store = self.left.take().ok_or(Fault::NoRow)?;
                self.run(told, alloc, store)?;
            }
            "first" => add_first_file(told, alloc, rest)?,
            "words" => self.words = words_of(alloc, rest)?,
            "show" => self.shown = words_of(alloc, rest)?,
            "store" => self.fails = numbers_of::<u64>(alloc, rest)?,
            "out" => self.out = limits_of(alloc, rest)?,
            "err" => self.err = limits_of(alloc, rest)?,
            _ => follow_file(rt, &mut self.files, verb, rest)?,
        }
        Ok(())
    }
}

fn call(
    alloc: Global,
    words: &Vec<String>,
    store: &mut MemStore,
    out: &mut MemSink,
    err: &mut MemSink,
) -> u8 {
    tool(alloc, words, store, out, err).code()
}

/// Adds the length and the digest of each of these contents.
fn add_contents(told: &mut Told, store: &MemStore, names: &[String]) -> Result<(), Fault> {
    for name in names {
        told.words(" ")?;
        told.words(name.as_str())?;
        match store.get(name.as_str()) {
            Some(bytes) => {
                told.words(" ")?;
                told.value(&bytes.len())?;
                told.words(" ")?;
                told.digits(&Sha1::digest(bytes))?;
            }
            None => told.words(" is not there")?,
        }
    }
    Ok(())
}
