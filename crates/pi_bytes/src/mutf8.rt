// Texts in MUTF-8, read and written. docs/dex-format.md states how a unit is spelled.

ghost use Rattle.std.specs.Prelude.{◌≡◌, ◌^◌, ◌<◌, ◌≤◌, ℕ, List, All, Ok, Err, [], ◌∷◌, ◌++◌, length, IfSome, IfOk, OnOk, IfErr};
ghost use Rattle.pi_bytes.specs.Mutf8.{spelling, spellings, is_further, two_of, three_of, unit_at, ends_text, units_at, Answers, Spells, Stops, IsBad};

use crate::fault::MutfError;
use pi_model::listed::Units;
use std::alloc::{AllocError, Global};

/// Whether a byte goes on with a unit.
fn is_further(byte: u8) -> bool
    ensures { result ≡ is_further byte }
{
    128 <= byte && byte < 192
}

/// The unit that two bytes spell.
fn two_of(a: u8, b: u8) -> Option<(u16, usize)>
    ensures { result ≡ two_of a b }
{
    let unit = a as u16 % 32 * 64 + b as u16 % 64;
    if is_further(b) && (unit == 0 || unit >= 128) {
        Some((unit, 2))
    } else {
        None
    }
}

/// The unit that three bytes spell.
fn three_of(a: u8, b: u8, c: u8) -> Option<(u16, usize)>
    ensures { result ≡ three_of a b c }
{
    let unit = a as u16 % 16 * 4096 + b as u16 % 64 * 64 + c as u16 % 64;
    if is_further(b) && is_further(c) && unit >= 2048 {
        Some((unit, 3))
    } else {
        None
    }
}

/// The unit whose spelling the bytes begin with, and how many bytes it takes.
pub fn unit_of(bytes: &[u8]) -> Option<(u16, usize)>
    ensures value { result ≡ unit_at bytes.now }
    ensures within { IfSome result (λ x. x.1 ≤ length bytes.now) }
    ensures few { IfSome result (λ x. x.1 ≤ 3) }
{
    match bytes {
        [a, ..] if 0 < *a && *a < 128 => Some((*a as u16, 1)),
        [a, b, ..] if 192 <= *a && *a < 224 => two_of(*a, *b),
        [a, b, c, ..] if 224 <= *a && *a < 240 => three_of(*a, *b, *c),
        _ => None,
    }
}

/// Whether the bytes begin with the 0 behind a text.
pub fn ends_text(bytes: &[u8]) -> bool
    ensures { result ≡ ends_text bytes.now }
{
    matches!(bytes, [0, ..])
}

/// The units of the text at the front of bytes, that many of them, and the number of bytes before the 0 behind it.
///
/// Bad names the first byte at which no unit is spelled, or at which the 0 should stand. The time and the memory grow
/// with the bytes that are read, and never with the count alone.
#[tactic(auto, using(crate::proofs::Texts::goes_on, crate::proofs::Texts::stops, crate::proofs::Texts::ends, crate::proofs::Texts::ends_not, crate::proofs::Laws::units_counted, crate::proofs::Laws::units_spelled, crate::proofs::Laws::units_before, crate::proofs::Laws::bad_stops), unfolding(crate::specs::Mutf8::units_at))]
pub fn mutf8_units(alloc: Global, bytes: &[u8], count: u32) -> Result<(Units, usize), MutfError>
    ensures exact { Answers (units_at count bytes.now) result }
    ensures counted { IfOk result (λ x. length x.0 ≡ count) }
    ensures spelled { IfOk result (λ x. Spells x.0 bytes.now) }
    ensures before { IfOk result (λ x. x.1 ≡ length (spellings x.0)) }
    ensures bad { IfErr result (IsBad count bytes.now) }
{
    let mut units = Units::new(alloc);
    let mut at = 0;
    for read in 0..count {
        let Some((unit, taken)) = unit_of(bytes.split_at(at).1) else {
            return Err(MutfError::Bad(at));
        };
        units.push(unit)?;
        at += taken;
    }
    if ends_text(bytes.split_at(at).1) {
        Ok((units, at))
    } else {
        Err(MutfError::Bad(at))
    }
}

/// Adds the spelling of a unit.
fn push_unit(bytes: &mut Vec<u8>, unit: u16) -> Result<(), AllocError>
    ensures { OnOk result (bytes.new.items ≡ bytes.old.items ++ spelling unit) }
{
    let last = 128 + (unit % 64) as u8;
    if unit == 0 {
        bytes.extend_from_slice(&[192, 128])
    } else if unit < 128 {
        bytes.extend_from_slice(&[unit as u8])
    } else if unit < 2048 {
        bytes.extend_from_slice(&[192 + (unit / 64) as u8, last])
    } else {
        let middle = 128 + (unit / 64 % 64) as u8;
        bytes.extend_from_slice(&[224 + (unit / 4096) as u8, middle, last])
    }
}

/// The text of units as bytes: the spelling of each and the 0 behind them.
pub fn mutf8_of(alloc: Global, units: &[u16]) -> Result<Vec<u8>, AllocError>
    ensures { IfOk result (λ bytes. bytes.items ≡ spellings units.now ++ 0 ∷ []) }
{
    let mut bytes = Vec::new(alloc);
    for unit in units {
        push_unit(&mut bytes, *unit)?;
    }
    bytes.push(0)?;
    Ok(bytes)
}

/// The law that units which are written are read again, whatever follows.
pub fn written_is_read()
    ensures { (units rest : List ℕ) → All (λ u. u < 2 ^ 16) units → units_at (length units) (spellings units ++ 0 ∷ rest) ≡ Ok (units, length (spellings units)) }
{}

/// The laws that the units which are read are as many as were asked for, that the bytes begin with their spelling and a
/// 0, and that the place is behind the spelling.
pub fn read_is_spelled()
    ensures counted { (count : ℕ) (bytes units : List ℕ) (at : ℕ) → units_at count bytes ≡ Ok (units, at) → length units ≡ count }
    ensures spelled { (count : ℕ) (bytes units : List ℕ) (at : ℕ) → units_at count bytes ≡ Ok (units, at) → Spells units bytes }
    ensures before { (count : ℕ) (bytes units : List ℕ) (at : ℕ) → units_at count bytes ≡ Ok (units, at) → at ≡ length (spellings units) }
{}

/// The laws that reading stops where no unit is spelled or the 0 is not, and nowhere else.
pub fn bad_is_no_unit()
    ensures stops { (count : ℕ) (bytes : List ℕ) (at : ℕ) → units_at count bytes ≡ Err at → Stops count bytes at }
    ensures only_there { (count : ℕ) (bytes : List ℕ) (at : ℕ) → Stops count bytes at → units_at count bytes ≡ Err at }
{}
