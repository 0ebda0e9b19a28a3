// Instructions and payloads in units. A unit is written with four digits. The rows:
//
//   case                  begins anew with no unit
//   units HEX             units behind those that are there
//   times COUNT HEX       units, so many times
//   cut LENGTH            the first units
//   decode PLACE          the instruction at a place, and how many units it has
//   encode PLACE          the units that are written of the instruction at a place
//   walk                  instructions from the first unit on, one behind the other: their number, and the digest of what
//                         is written of them
//   payload PLACE         the payload at a place
//   length OPCODE         how many units an instruction of this opcode has
//   write NAME NUMBER..   the units of an instruction that has these operands
//
// insn_words.rt has the names of the last row.
ghost use Rattle.std.specs.Prelude.{◌<◌, length};
ghost use Rattle.pi_insn.specs.Writing.{IsInTable};

use crate::insn_words::insn_of;
use pi_insn::{EncodeError, RawInsn, decode, encode, payload, row_of, units_of as units_in};
use pi_rows::fault::Fault;
use pi_rows::follow::Subject;
use pi_rows::told::Told;
use pi_rows::words::{bytes_of, copies_of, halves, numbers_of, units_of};
use std::alloc::{AllocError, Global};

/// The units that rows have described.
#[derive(Drop)]
pub struct Instructions {
    units: Vec<u16>,
}

impl Instructions {
    pub fn new(alloc: Global) -> Instructions {
        Instructions {
            units: Vec::new(alloc),
        }
    }

    fn add(&mut self, alloc: Global, bytes: &[u8]) -> Result<(), Fault> {
        let further = units_of(alloc, bytes)?;
        self.units.extend_from_slice(further.as_slice())?;
        Ok(())
    }
}

impl Subject for Instructions {
    fn follow(
        &mut self,
        rt: &HostRuntime,
        verb: &str,
        rest: &str,
        told: &mut Told,
    ) -> Result<(), Fault> {
        let alloc = rt.alloc();
        match verb {
            "case" => {
                *self = Instructions::new(alloc);
                Ok(())
            }
            "units" => {
                let bytes = bytes_of(alloc, rest)?;
                self.add(alloc, bytes.as_slice())
            }
            "times" => {
                let bytes = copies_of(alloc, rest)?;
                self.add(alloc, bytes.as_slice())
            }
            "cut" => cut(&mut self.units, rest),
            "walk" => add_walk(told, alloc, self.units.as_slice()),
            "write" => write(told, alloc, rest),
            "length" => add_length(told, rest.parse::<u8>()?),
            _ => ask_at(told, alloc, self.units.as_slice(), verb, rest),
        }
    }
}

fn cut(units: &mut Vec<u16>, rest: &str) -> Result<(), Fault> {
    let length = rest.parse::<usize>()?;
    if length > units.len() {
        return Err(Fault::NoRow);
    }
    units.truncate(length);
    Ok(())
}

/// Adds how many units an instruction of an opcode has.
fn add_length(told: &mut Told, op: u8) -> Result<(), Fault> {
    match row_of(op) {
        Some(row) => told.value(&units_in(row)),
        None => told.words("none"),
    }
}

/// Adds what a row asks of a place.
fn ask_at(
    told: &mut Told,
    alloc: Global,
    units: &[u16],
    verb: &str,
    rest: &str,
) -> Result<(), Fault> {
    let place = rest.parse::<usize>()?;
    match verb {
        "payload" => told.debug(&payload(units, place)),
        "decode" | "encode" if place >= units.len() => told.words("none"),
        "decode" => add_decoded(told, units, place),
        "encode" => add_encoded(told, alloc, units, place),
        _ => Err(Fault::NoRow),
    }
}

/// Adds the instruction at a place.
fn add_decoded(told: &mut Told, units: &[u16], place: usize) -> Result<(), Fault>
    requires { place < length units.now }
{
    match decode(units, place) {
        Ok((insn, count)) => {
            told.debug(&insn)?;
            told.words(" ")?;
            told.value(&count)
        }
        Err(fault) => told.fault(&fault),
    }
}

/// Adds what is written of the instruction at a place.
fn add_encoded(told: &mut Told, alloc: Global, units: &[u16], place: usize) -> Result<(), Fault>
    requires { place < length units.now }
{
    match decode(units, place) {
        Ok((insn, _)) => add_written(told, alloc, &insn),
        Err(fault) => told.fault(&fault),
    }
}

/// Adds what is written of an instruction, with a space between each two units.
fn add_written(told: &mut Told, alloc: Global, insn: &RawInsn) -> Result<(), Fault>
    requires { IsInTable insn.now }
{
    let units = match encode(alloc, insn) {
        Ok(units) => units,
        Err(fault) => return told.fault(&fault),
    };
    for unit in units.as_slice() {
        if told.is_begun() {
            told.words(" ")?;
        }
        told.digits(&unit.to_be_bytes())?;
    }
    Ok(())
}

/// Adds what is written of an instruction that a row spells.
fn write(told: &mut Told, alloc: Global, rest: &str) -> Result<(), Fault> {
    let (name, operands) = halves(rest)?;
    let operands = numbers_of::<i64>(alloc, operands)?;
    let insn = insn_of(name, operands.as_slice())?;
    add_written(told, alloc, &insn)
}

/// Follows instructions to the end of the units, or to a unit where none stands.
fn add_walk(told: &mut Told, alloc: Global, units: &[u16]) -> Result<(), Fault> {
    let mut bytes = Vec::new(alloc);
    let mut place: usize = 0;
    let mut count: usize = 0;
    for _ in 0..units.len() {
        let Some(taken) = step(alloc, units, place, &mut bytes)? else {
            break;
        };
        place = place.wrapping_add(taken);
        count = count.wrapping_add(1);
    }
    told.value(&count)?;
    told.words(" to ")?;
    told.value(&place)?;
    told.words(", written as ")?;
    told.digest(bytes.as_slice())
}

/// How many units the instruction at a place has, with the bytes of what is written of it added, the low one first.
fn step(
    alloc: Global,
    units: &[u16],
    place: usize,
    bytes: &mut Vec<u8>,
) -> Result<Option<usize>, Fault> {
    if place >= units.len() {
        return Ok(None);
    }
    let Ok((insn, count)) = decode(units, place) else {
        return Ok(None);
    };
    let list = match encode(alloc, &insn) {
        Ok(list) => list,
        Err(EncodeError::OutOfMemory) => return Err(Fault::from(AllocError)),
        Err(EncodeError::Range) => return Ok(None),
    };
    for unit in list.as_slice() {
        bytes.extend_from_slice(&unit.to_le_bytes())?;
    }
    Ok(Some(count))
}
