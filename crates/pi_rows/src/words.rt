// The words of a row: texts with escapes, numbers and bytes.
//
// In a text \s is a space, \n the end of a line, \t a tab, \\ a backslash, \e nothing at all (so that an empty word can be
// written), and \x with two digits is a byte.
use crate::fault::Fault;
use std::alloc::Global;
use std::str::FromStr;

/// The word before the first space, and what stands behind it.
pub fn halves(text: &str) -> Result<(&str, &str), Fault> {
    text.split_once(' ').ok_or(Fault::NoRow)
}

/// The bytes that a text means.
pub fn text_of(alloc: Global, text: &str) -> Result<Vec<u8>, Fault> {
    let mut bytes = Vec::new(alloc);
    let mut rest = text.as_bytes();
    for _ in 0..text.len() {
        rest = match rest {
            [] => break,
            [b'\\', b'e', behind @ ..] => behind,
            [b'\\', b'x', high, low, behind @ ..] => {
                bytes.push(byte_of(&[*high, *low])?)?;
                behind
            }
            [b'\\', letter, behind @ ..] => {
                bytes.push(escaped(*letter)?)?;
                behind
            }
            [b'\\'] => return Err(Fault::NoRow),
            [byte, behind @ ..] => {
                bytes.push(*byte)?;
                behind
            }
        };
    }
    Ok(bytes)
}

fn escaped(letter: u8) -> Result<u8, Fault> {
    match letter {
        b's' => Ok(b' '),
        b'n' => Ok(b'\n'),
        b't' => Ok(b'\t'),
        b'\\' => Ok(b'\\'),
        _ => Err(Fault::NoRow),
    }
}

/// A word as it is meant.
pub fn word_of(alloc: Global, text: &str) -> Result<String, Fault> {
    String::from_utf8(text_of(alloc, text)?)
        .ok()
        .ok_or(Fault::NoRow)
}

/// Words with a space between each two.
pub fn words_of(alloc: Global, text: &str) -> Result<Vec<String>, Fault> {
    let mut words = Vec::new(alloc);
    for piece in text.split_whitespace() {
        words.push(word_of(alloc, piece)?)?;
    }
    Ok(words)
}

/// Numbers with a space between each two.
pub fn numbers_of<T: FromStr + Drop>(alloc: Global, text: &str) -> Result<Vec<T>, Fault>
where
    T::Err: Drop,
{
    let mut numbers = Vec::new(alloc);
    for piece in text.split_whitespace() {
        match piece.parse::<T>() {
            Ok(number) => numbers.push(number)?,
            Err(_) => return Err(Fault::NoRow),
        }
    }
    Ok(numbers)
}

/// The bytes that pairs of digits say.
pub fn bytes_of(alloc: Global, text: &str) -> Result<Vec<u8>, Fault> {
    let mut bytes = Vec::new(alloc);
    for pair in text.as_bytes().chunks(2) {
        bytes.push(byte_of(pair)?)?;
    }
    Ok(bytes)
}

fn byte_of(pair: &[u8]) -> Result<u8, Fault> {
    match pair {
        [high, low] => Ok(digit(*high)? << 4 | digit(*low)?),
        _ => Err(Fault::NoRow),
    }
}

fn digit(byte: u8) -> Result<u8, Fault> {
    match byte {
        b'0'..=b'9' => Ok(byte.wrapping_sub(b'0')),
        b'a'..=b'f' => Ok(byte.wrapping_sub(b'a').wrapping_add(10)),
        _ => Err(Fault::NoRow),
    }
}

/// Units of two bytes each, the high one first.
pub fn units_of(alloc: Global, bytes: &[u8]) -> Result<Vec<u16>, Fault> {
    let mut units = Vec::new(alloc);
    for pair in bytes.chunks(2) {
        match pair {
            [high, low] => units.push(u16::from_be_bytes([*high, *low]))?,
            _ => return Err(Fault::NoRow),
        }
    }
    Ok(units)
}

/// The bytes of COUNT HEX.
pub fn copies_of(alloc: Global, text: &str) -> Result<Vec<u8>, Fault> {
    let (count, digits) = halves(text)?;
    let piece = bytes_of(alloc, digits)?;
    copies(alloc, count.parse::<u64>()?, piece.as_slice())
}

/// Bytes so many times behind each other.
pub fn copies(alloc: Global, count: u64, piece: &[u8]) -> Result<Vec<u8>, Fault> {
    let mut all = Vec::new(alloc);
    for _ in 0..count {
        all.extend_from_slice(piece)?;
    }
    Ok(all)
}
