// The files of the system as a store, by a runtime. It tells no contents: what lies in files is
// outside the proofs. docs/outside.md states the rules.
ghost use Rattle.std.specs.Prelude.{◌≡◌, ◌≢◌, ◌≤◌, length, IfOk, None, false};
ghost use Rattle.pi_base.specs.Outside.{IsFresh};

use crate::counts::StoreCounts;
use crate::outside::{Store, StoreError};
use std::alloc::Global;
use std::io::{ErrorKind, Read};
use std::rt::Files;
use std::{fs, io};

/// The files that `rt` reaches. A name is a path, taken from the folder where the program runs.
#[derive(Drop)]
pub struct FileStore<R> {
    rt: R,
    counts: StoreCounts,
}

impl<R: Files> FileStore<R> {
    /// The files of `rt`, with nothing refused so far.
    pub fn new(rt: R) -> FileStore<R>
        ensures { IsFresh (⟦<FileStore<R> as Store>⟧.view result) }
    {
        FileStore {
            rt,
            counts: StoreCounts::new(),
        }
    }
}

impl<R: Files> Store for FileStore<R> {
    ghost view = { λ store. record {
      shown = false;
      faithful = false;
      contents = λ _. None;
      read_faults = store.counts.read_faults;
      write_faults = store.counts.write_faults;
      misses = store.counts.misses;
      overs = store.counts.overs;
    } };

    /// A path where nothing is, is `Missing`. A folder, a path through something that is no
    /// folder, and every other fault but want of memory are `Failed`.
    fn read(&mut self, alloc: Global, name: &str, limit: usize) -> Result<Vec<u8>, StoreError> {
        let result = read_file(&self.rt, alloc, name, limit);
        if let Err(error) = &result {
            self.counts.note_read(*error);
        }
        result
    }

    /// Makes the file, or empties it first. Every fault but want of memory is `Failed`.
    fn write(&mut self, name: &str, bytes: &[u8]) -> Result<(), StoreError> {
        match fs::write(&self.rt, name, bytes) {
            Ok(()) => Ok(()),
            Err(error) if error.kind() == ErrorKind::OutOfMemory => Err(StoreError::OutOfMemory),
            Err(_) => {
                self.counts.note_write_fault();
                Err(StoreError::Failed)
            }
        }
    }
}

/// The bytes of a file, of which at most one past the limit is read.
fn read_file<R: Files>(
    rt: &R,
    alloc: Global,
    name: &str,
    limit: usize,
) -> Result<Vec<u8>, StoreError>
    ensures { IfOk result (λ found. length found.items ≤ limit) }
{
    let file = fs::open(rt, name).map_err(read_error)?;
    let mut found = Vec::new(alloc);
    file.take((limit as u64).saturating_add(1))
        .read_to_end(&mut found)
        .map_err(read_error)?;
    if found.len() > limit {
        return Err(StoreError::TooLarge);
    }
    Ok(found)
}

/// What a refused read of a file answers.
fn read_error(error: io::Error) -> StoreError {
    match error.kind() {
        ErrorKind::OutOfMemory => StoreError::OutOfMemory,
        ErrorKind::NotFound => StoreError::Missing,
        _ => StoreError::Failed,
    }
}
