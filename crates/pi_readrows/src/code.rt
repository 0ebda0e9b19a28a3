// The code items of a file, as rows of reader.rt ask for them.
ghost use Rattle.std.specs.Prelude.{◌≡◌, ◌<◌, ◌≤◌, length, true, IfOk};
ghost use Rattle.pi_bytes.specs.Numbers.{most_bytes, word_end};
ghost use Rattle.pi_format.specs.Rules.CodeItems.{code_lies};

use crate::said::add_code;
use pi_bytes::numbers::MOST_BYTES;
use pi_codeitem::{
    Piece, Walk, broken_index, broken_payload, handlers, head, holds, lies, lists_at, ranges_hold,
    try_range, units, walk,
};
use pi_rows::fault::Fault;
use pi_rows::told::Told;
use pi_rows::words::numbers_of;
use std::alloc::Global;

/// Follows a row on a code item.
pub(crate) fn follow_code(
    told: &mut Told,
    alloc: Global,
    file: &[u8],
    verb: &str,
    rest: &str,
) -> Result<(), Fault>
    requires { length file.now ≤ most_bytes }
{
    let numbers = numbers_of::<i64>(alloc, rest)?;
    let [place, further @ ..] = numbers.as_slice() else {
        return Err(Fault::NoRow);
    };
    let at = word(*place)?;
    if file.len() < 112 {
        return Err(Fault::NoRow);
    }
    match (verb, further) {
        ("item", [words]) => add_item(told, alloc, file, at as usize, word(*words)?),
        ("says", []) => add_code(told, alloc, file, at as usize),
        _ if !lies(file, at as usize) => Err(Fault::NoRow),
        ("list", [list]) => add_list(told, alloc, file, at as usize, word(*list)?),
        ("piece", [unit]) => add_piece(told, alloc, file, at as usize, word(*unit)?),
        ("payload", [unit, dist]) => {
            let dist = i32::try_from(*dist)?;
            add_payload(told, alloc, file, at as usize, word(*unit)?, dist)
        }
        _ => Err(Fault::NoRow),
    }
}

fn word(number: i64) -> Result<u32, Fault> {
    Ok(u32::try_from(number)?)
}

/// Adds what a code item is.
fn add_item(told: &mut Told, alloc: Global, file: &[u8], at: usize, words: u32) -> Result<(), Fault>
    requires header { 112 ≤ length file.now }
    requires small { length file.now ≤ most_bytes }
    requires place { at < word_end }
{
    told.line_of("holds", &holds(alloc, file, at, words)?)?;
    if !lies(file, at) {
        return Ok(());
    }
    add_head(told, file, at)?;
    add_lists(told, alloc, file, at)?;
    add_walk(told, alloc, file, at)
}

/// Adds the head and the ranges.
fn add_head(told: &mut Told, file: &[u8], at: usize) -> Result<(), Fault>
    requires place { at < word_end }
    requires lies { code_lies file.now at ≡ true }
{
    let head = head(file, at);
    told.line()?;
    told.debug(&head)?;
    told.words(", lists at ")?;
    told.value(&lists_at(at, &head))?;
    if head.tries == 0 {
        return Ok(());
    }
    if !ranges_hold(file, at, &head) {
        told.line()?;
        return told.words("ranges that do not hold");
    }
    for k in 0..head.tries as usize {
        told.line()?;
        told.debug(&try_range(file, at, k))?;
    }
    Ok(())
}

fn add_lists(told: &mut Told, alloc: Global, file: &[u8], at: usize) -> Result<(), Fault>
    requires header { 112 ≤ length file.now }
    requires small { length file.now ≤ most_bytes }
    requires place { at < word_end }
    requires lies { code_lies file.now at ≡ true }
{
    let Some(lists) = handlers(alloc, file, at)? else {
        told.line()?;
        return told.words("lists that do not hold");
    };
    for list in lists.as_slice() {
        told.line()?;
        told.debug(list)?;
    }
    Ok(())
}

/// Adds the units, the pieces that they are, and where rules on them are broken.
fn add_walk(told: &mut Told, alloc: Global, file: &[u8], at: usize) -> Result<(), Fault>
    requires header { 112 ≤ length file.now }
    requires lies { code_lies file.now at ≡ true }
{
    let units = units(alloc, file, at)?;
    told.line_of("units", &units)?;
    if units.len() > MOST_BYTES {
        return Ok(());
    }
    let walk = walk(alloc, units.as_slice())?;
    add_pieces(told, &walk)?;
    told.line_of("stops at", &walk.stop())?;
    told.line_of("broken payload", &broken_payload(&walk))?;
    told.words(", broken index ")?;
    told.debug(&broken_index(file, &walk))
}

fn add_pieces(told: &mut Told, walk: &Walk<'_>) -> Result<(), Fault> {
    told.line()?;
    told.value(&walk.len())?;
    told.words(" pieces")?;
    for k in 0..walk.len() {
        told.words(" ")?;
        add_spelled(told, &walk.piece(k))?;
    }
    Ok(())
}

/// Adds a piece by its first unit and the number of its units, and whether it is a payload.
fn add_spelled(told: &mut Told, piece: &Piece<'_>) -> Result<(), Fault> {
    told.value(&piece.at)?;
    told.words("+")?;
    told.value(&piece.units)?;
    if piece.payload().is_some() {
        told.words(" payload")?;
    }
    Ok(())
}

fn add_list(told: &mut Told, alloc: Global, file: &[u8], at: usize, list: u32) -> Result<(), Fault>
    requires header { 112 ≤ length file.now }
    requires small { length file.now ≤ most_bytes }
    requires place { at < word_end }
    requires lies { code_lies file.now at ≡ true }
{
    match handlers(alloc, file, at)? {
        Some(lists) => told.debug(&lists.find(list)),
        None => Err(Fault::NoRow),
    }
}

/// The units of a code item.
fn few_units(alloc: Global, file: &[u8], at: usize) -> Result<Vec<u16>, Fault>
    requires lies { code_lies file.now at ≡ true }
    ensures { IfOk result (λ units. length units.items ≤ most_bytes) }
{
    let units = units(alloc, file, at)?;
    if units.len() > MOST_BYTES {
        return Err(Fault::NoRow);
    }
    Ok(units)
}

fn add_piece(told: &mut Told, alloc: Global, file: &[u8], at: usize, unit: u32) -> Result<(), Fault>
    requires lies { code_lies file.now at ≡ true }
{
    let units = few_units(alloc, file, at)?;
    match walk(alloc, units.as_slice())?.piece_at(unit) {
        Some(piece) => add_spelled(told, &piece),
        None => told.words("none"),
    }
}

fn add_payload(
    told: &mut Told,
    alloc: Global,
    file: &[u8],
    at: usize,
    unit: u32,
    dist: i32,
) -> Result<(), Fault>
    requires lies { code_lies file.now at ≡ true }
{
    let units = few_units(alloc, file, at)?;
    let walk = walk(alloc, units.as_slice())?;
    told.debug(&walk.payload_of(unit, dist))
}
