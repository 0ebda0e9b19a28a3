// The words of rows that are followed many times. A number A+B is A the first time, and more by B each time that follows.
use pi_model::listed::Units;
use pi_rows::fault::Fault;
use pi_rows::words::{bytes_of, units_of};
use std::alloc::Global;

/// A number, where a row is followed for the time that has that place, counted from 0.
fn number_at(word: &str, time: u64) -> Result<u64, Fault> {
    match word.split_once('+') {
        Some((first, more)) => {
            let more = more.parse::<u64>()?.wrapping_mul(time);
            Ok(first.parse::<u64>()?.wrapping_add(more))
        }
        None => Ok(word.parse::<u64>()?),
    }
}

/// Numbers with a space between each two.
pub(crate) fn numbers_at(alloc: Global, text: &str, time: u64) -> Result<Vec<u64>, Fault> {
    let mut numbers = Vec::new(alloc);
    for word in text.split_whitespace() {
        numbers.push(number_at(word, time)?)?;
    }
    Ok(numbers)
}

/// The units of a string.
pub(crate) fn string_at(alloc: Global, text: &str, time: u64) -> Result<Units, Fault> {
    let mut units = Units::new(alloc);
    for word in text.split_whitespace() {
        if word.contains('+') {
            add_number(&mut units, number_at(word, time)?)?;
        } else {
            add_copies(alloc, &mut units, word)?;
        }
    }
    Ok(units)
}

/// Adds a number of 32 bits as four units from 0x100 to 0x1ff, so that larger numbers are behind smaller ones.
fn add_number(units: &mut Units, number: u64) -> Result<(), Fault> {
    for byte in u32::try_from(number)?.to_be_bytes() {
        units.push(u16::from_be_bytes([1, byte]))?;
    }
    Ok(())
}

/// Adds units of four digits each, or so many copies of them.
fn add_copies(alloc: Global, units: &mut Units, word: &str) -> Result<(), Fault> {
    let (count, digits) = word.split_once('*').unwrap_or(("1", word));
    let piece = units_of(alloc, bytes_of(alloc, digits)?.as_slice())?;
    for _ in 0..count.parse::<u64>()? {
        units.extend_from_slice(piece.as_slice())?;
    }
    Ok(())
}
