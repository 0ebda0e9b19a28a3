// Numbers and texts in bytes. The rows:
//
//   case                  begins anew with no byte
//   bytes HEX             bytes behind those that are there
//   times COUNT HEX       bytes, so many times
//   read PLACE CALL..     calls of one cursor that begins at the place: u8, u16, u32, uleb, sleb, at, and take=COUNT
//   text COUNT            the text of so many units that the bytes begin with, and its number of bytes before the 0
//   spell                 the bytes as units, the high byte first, are written as a text
use pi_bytes::cursor::Cursor;
use pi_bytes::mutf8::{mutf8_of, mutf8_units};
use pi_rows::fault::Fault;
use pi_rows::follow::Subject;
use pi_rows::told::Told;
use pi_rows::words::{bytes_of, copies_of, units_of};
use std::alloc::Global;

/// The bytes that rows have described.
#[derive(Drop)]
pub struct Numbers {
    bytes: Vec<u8>,
}

impl Numbers {
    pub fn new(alloc: Global) -> Numbers {
        Numbers {
            bytes: Vec::new(alloc),
        }
    }

    fn add(&mut self, further: Vec<u8>) -> Result<(), Fault> {
        self.bytes.extend_from_slice(further.as_slice())?;
        Ok(())
    }
}

impl Subject for Numbers {
    fn follow(
        &mut self,
        rt: &HostRuntime,
        verb: &str,
        rest: &str,
        told: &mut Told,
    ) -> Result<(), Fault> {
        let alloc = rt.alloc();
        match verb {
            "case" => {
                *self = Numbers::new(alloc);
                Ok(())
            }
            "bytes" => {
                let bytes = bytes_of(alloc, rest)?;
                self.add(bytes)
            }
            "times" => {
                let bytes = copies_of(alloc, rest)?;
                self.add(bytes)
            }
            "read" => read(told, self.bytes.as_slice(), rest),
            "text" => add_text(told, alloc, self.bytes.as_slice(), rest.parse::<u32>()?),
            "spell" => spell(told, alloc, self.bytes.as_slice()),
            _ => Err(Fault::NoRow),
        }
    }
}

/// Adds what the calls of a cursor answer.
fn read(told: &mut Told, bytes: &[u8], rest: &str) -> Result<(), Fault> {
    let (place, calls) = rest.split_once(' ').unwrap_or((rest, ""));
    let place = place.parse::<usize>()?;
    if place > bytes.len() {
        return Err(Fault::NoRow);
    }
    let mut cursor = Cursor::new(bytes, place);
    for call in calls.split_whitespace() {
        if told.is_begun() {
            told.words(" ")?;
        }
        add_call(told, &mut cursor, call)?;
    }
    Ok(())
}

/// Adds what one call of a cursor answers.
fn add_call(told: &mut Told, cursor: &mut Cursor<'_>, call: &str) -> Result<(), Fault> {
    match call {
        "u8" => told.debug(&cursor.u8()),
        "u16" => told.debug(&cursor.u16()),
        "u32" => told.debug(&cursor.u32()),
        "uleb" => told.debug(&cursor.uleb()),
        "sleb" => told.debug(&cursor.sleb()),
        "at" => told.value(&cursor.at()),
        _ => match call.strip_prefix("take=") {
            Some(count) => take(told, cursor, count.parse::<usize>()?),
            None => Err(Fault::NoRow),
        },
    }
}

/// Adds what taking a piece answers.
fn take(told: &mut Told, cursor: &mut Cursor<'_>, count: usize) -> Result<(), Fault> {
    match cursor.take(count) {
        Ok(piece) => {
            told.words("[")?;
            told.digits(piece)?;
            told.words("]")
        }
        Err(fault) => {
            told.words("Err(")?;
            told.debug(&fault)?;
            told.words(")")
        }
    }
}

/// Adds the text that bytes begin with.
fn add_text(told: &mut Told, alloc: Global, bytes: &[u8], count: u32) -> Result<(), Fault> {
    match mutf8_units(alloc, bytes, count) {
        Ok((units, before)) => {
            let mut text = Told::new(alloc);
            text.units(units.as_slice())?;
            told.words("[")?;
            told.short(text.as_str())?;
            told.words("] ")?;
            told.value(&before)
        }
        Err(fault) => told.fault(&fault),
    }
}

/// Adds the text of the units that bytes are.
fn spell(told: &mut Told, alloc: Global, bytes: &[u8]) -> Result<(), Fault> {
    let units = units_of(alloc, bytes)?;
    told.digits(mutf8_of(alloc, units.as_slice())?.as_slice())
}
