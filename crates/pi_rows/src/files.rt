// Files that rows make and alter. These rows belong to each subject that has files:
//
//   file NAME SOURCE      a file NAME with the bytes of the file SOURCE in data/; - is no byte
//   put PLACE HEX         bytes are written over the last file from a place on; it is longer where they reach past its end
//   cut LENGTH            the last file's first bytes
//   zeros COUNT           so many zeros behind the last file
//   fill COUNT HEX        so many times these bytes behind it
//   length, sign, sum     the last file says its length; its signature is made anew; its checksum is
use crate::fault::Fault;
use crate::words::{bytes_of, copies, copies_of, halves, word_of};
use pi_bytes::sums::adler32;
use sha1::Sha1;
use std::alloc::Global;
use std::fs;

/// A content by its name.
#[derive(Drop)]
pub struct Named {
    pub name: String,
    pub bytes: Vec<u8>,
}

/// Follows a row on files.
pub fn follow_file(
    rt: &HostRuntime,
    files: &mut Vec<Named>,
    verb: &str,
    rest: &str,
) -> Result<(), Fault> {
    if verb == "file" {
        return add_file(rt, files, rest);
    }
    match files.last_mut() {
        Some(file) => alter(rt.alloc(), &mut file.bytes, verb, rest),
        None => Err(Fault::NoRow),
    }
}

/// Adds a file with the bytes of one in data/.
fn add_file(rt: &HostRuntime, files: &mut Vec<Named>, rest: &str) -> Result<(), Fault> {
    let alloc = rt.alloc();
    let (name, source) = halves(rest)?;
    let name = word_of(alloc, name)?;
    let bytes = match source {
        "-" => Vec::new(alloc),
        _ => fs::read(rt, source)?,
    };
    files.push(Named { name, bytes })?;
    Ok(())
}

fn alter(alloc: Global, file: &mut Vec<u8>, verb: &str, rest: &str) -> Result<(), Fault> {
    match verb {
        "put" => put(alloc, file, rest),
        "cut" => cut(file, rest),
        "zeros" => {
            let zeros = copies(alloc, rest.parse::<u64>()?, &[0])?;
            add(file, zeros.as_slice())
        }
        "fill" => {
            let bytes = copies_of(alloc, rest)?;
            add(file, bytes.as_slice())
        }
        "length" => {
            let length = u32::try_from(file.len())?;
            write_over(file, 32, &length.to_le_bytes())
        }
        "sign" => {
            let digest = Sha1::digest(tail(file.as_slice(), 32)?);
            write_over(file, 12, &digest)
        }
        "sum" => {
            let sum = adler32(tail(file.as_slice(), 12)?);
            write_over(file, 8, &sum.to_le_bytes())
        }
        _ => Err(Fault::NoRow),
    }
}

fn put(alloc: Global, file: &mut Vec<u8>, rest: &str) -> Result<(), Fault> {
    let (place, digits) = halves(rest)?;
    let place = place.parse::<usize>()?;
    let bytes = bytes_of(alloc, digits)?;
    write_over(file, place, bytes.as_slice())
}

fn cut(file: &mut Vec<u8>, rest: &str) -> Result<(), Fault> {
    let length = rest.parse::<usize>()?;
    if length > file.len() {
        return Err(Fault::NoRow);
    }
    file.truncate(length);
    Ok(())
}

fn add(file: &mut Vec<u8>, bytes: &[u8]) -> Result<(), Fault> {
    file.extend_from_slice(bytes)?;
    Ok(())
}

/// Writes bytes over those from a place on. No place past the end is taken.
fn write_over(file: &mut Vec<u8>, at: usize, bytes: &[u8]) -> Result<(), Fault> {
    if at > file.len() {
        return Err(Fault::NoRow);
    }
    for (behind, byte) in bytes.iter().enumerate() {
        match file.get_mut(at.wrapping_add(behind)) {
            Some(old) => *old = *byte,
            None => file.push(*byte)?,
        }
    }
    Ok(())
}

/// The bytes of a file from a place on.
fn tail(file: &[u8], place: usize) -> Result<&[u8], Fault> {
    match file.split_at_checked(place) {
        Some((_, rest)) => Ok(rest),
        None => Err(Fault::NoRow),
    }
}
