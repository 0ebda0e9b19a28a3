// The stores that rows ask: one in memory, and the files of the system.
use pi_base::file_store::FileStore;
use pi_base::mem_store::MemStore;
use pi_base::outside::{Store, StoreError};
use pi_rows::fault::Fault;
use std::{env, fs, process};

/// Where contents are.
#[derive(Drop)]
pub(crate) enum Contents {
    Memory(MemStore),
    Files,
}

impl Contents {
    /// What is read. The outer fault is of the folder for temporary files.
    pub(crate) fn read(
        &mut self,
        rt: &HostRuntime,
        name: &str,
        limit: usize,
    ) -> Result<Result<Vec<u8>, StoreError>, Fault> {
        let alloc = rt.alloc();
        match self {
            Contents::Memory(store) => Ok(store.read(alloc, name, limit)),
            Contents::Files => {
                let path = path_of(rt, name)?;
                Ok(FileStore::new(rt).read(alloc, path.as_str(), limit))
            }
        }
    }

    /// What a write answers. The outer fault is of the folder for temporary files.
    pub(crate) fn write(
        &mut self,
        rt: &HostRuntime,
        name: &str,
        bytes: &[u8],
    ) -> Result<Result<(), StoreError>, Fault> {
        match self {
            Contents::Memory(store) => Ok(store.write(name, bytes)),
            Contents::Files => {
                let path = path_of(rt, name)?;
                Ok(FileStore::new(rt).write(path.as_str(), bytes))
            }
        }
    }
}

/// Removes a file of the system.
pub(crate) fn remove(rt: &HostRuntime, name: &str) -> Result<(), Fault> {
    let path = path_of(rt, name)?;
    Ok(fs::remove_file(rt, path.as_str())?)
}

/// The path of a name: one of this process alone in the folder for temporary files. A point names that folder.
fn path_of(rt: &HostRuntime, name: &str) -> Result<String, Fault> {
    let alloc = rt.alloc();
    let folder = env::temp_dir(rt)?;
    let Some(folder) = folder.to_str() else {
        return Err(Fault::NoRow);
    };
    let id = process::id(rt.process());
    match name {
        "." => Ok(String::from_str(alloc, folder)?),
        _ => Ok(format!(in alloc; "{folder}/pi_cases-{id}-{name}")?),
    }
}
