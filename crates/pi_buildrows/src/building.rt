// Programs, and the file that says their classes.
use crate::described::Made;
use pi_bytes::numbers::MOST_BYTES;
use pi_dex::append;
use pi_dexwrite::{BuildError, Builder, can_be_added};
use pi_fits::fits_first;
use pi_model::listed::{Listed, Names};
use pi_model::numbers::ClassNo;
use pi_model::prog::Prog;
use pi_rows::fault::Fault;
use pi_rows::files::Named;
use std::alloc::{AllocError, Global};
use thiserror::Error;

/// The addresses of the switches of a class that are written with all their keys, method by method.
pub(crate) type Keys = Listed<Listed<u32>>;

/// Why there is no file.
#[derive(Debug, Drop, Error)]
pub(crate) enum Why {
    #[error("class {0} cannot be written")]
    Class(u32),
    #[error("class {0}: {1}")]
    Add(u32, BuildError),
    #[error("{0}")]
    Finish(BuildError),
}

/// The programs of files, and behind them the one that is described, with the keys of its classes.
pub(crate) fn programs(
    alloc: Global,
    files: &[Named],
    described: Made,
) -> Result<(Vec<Prog>, Vec<Listed<Keys>>), Fault> {
    let mut progs = Vec::new(alloc);
    let mut keys = Vec::new(alloc);
    for file in files {
        progs.push(program(alloc, file.bytes.as_slice())?)?;
        keys.push(Listed::new(alloc))?;
    }
    let Made {
        names,
        classes,
        keys: described_keys,
    } = described;
    if !fits_first(alloc, &names, &classes)? {
        return Err(Fault::NoRow);
    }
    let mut prog = Prog::new(alloc);
    prog.add_file(names, Names::new(alloc), classes)?;
    progs.push(prog)?;
    keys.push(described_keys)?;
    Ok((progs, keys))
}

/// The program of a file.
fn program(alloc: Global, file: &[u8]) -> Result<Prog, Fault> {
    if file.len() > MOST_BYTES {
        return Err(Fault::NoRow);
    }
    let mut prog = Prog::new(alloc);
    match append(alloc, &mut prog, file) {
        Ok(()) => Ok(prog),
        Err(_) => Err(Fault::NoRow),
    }
}

/// The file that says all classes of programs, in order; `keys` are for each program those of its classes, none for a class behind
/// them.
pub(crate) fn build(
    alloc: Global,
    progs: &[Prog],
    keys: &[Listed<Keys>],
) -> Result<Result<Vec<u8>, Why>, Fault> {
    let mut builder = Builder::new(alloc);
    for (place, prog) in progs.iter().enumerate() {
        let none = Listed::new(alloc);
        let keys = keys.get(place).unwrap_or(&none);
        if let Some(why) = add_classes(alloc, &mut builder, prog, keys)? {
            return Ok(Err(why));
        }
    }
    Ok(builder.finish(alloc).map_err(|fault| Why::Finish(fault)))
}

/// Adds the classes of a program. The answer is why one is not added.
fn add_classes<'p>(
    alloc: Global,
    builder: &mut Builder<'p>,
    prog: &'p Prog,
    keys: &Listed<Keys>,
) -> Result<Option<Why>, Fault> {
    for c in 0..prog.classes() {
        let listed = match keys.get(c as usize) {
            Some(keys) => copied(alloc, keys)?,
            None => Listed::new(alloc),
        };
        if !can_be_added(alloc, prog, ClassNo(c), &listed)? {
            return Ok(Some(Why::Class(c)));
        }
        if let Err(fault) = builder.add_class_with(alloc, prog, ClassNo(c), listed) {
            return Ok(Some(Why::Add(c, fault)));
        }
    }
    Ok(None)
}

fn copied(alloc: Global, keys: &Keys) -> Result<Keys, AllocError> {
    let mut list = Listed::new(alloc);
    for addresses in keys.as_slice() {
        list.push(Listed::from_slice(alloc, addresses.as_slice())?)?;
    }
    Ok(list)
}
