// The bytes of a code item, put behind the bytes that there are.

ghost use Rattle.std.specs.Prelude.{◌≡◌, ◌++◌, ◌∷◌, [], ◌↔◌, ◌<◌, ◌+◌, ◌^◌, length, OnOk, IfOk, IsTrue, All, slice_index};
ghost use Rattle.std.specs.List.{flat_map};
ghost use Rattle.pi_parts.specs.Parts.{offsets};
ghost use Rattle.pi_parts.specs.Lebs.{uleb_bytes};
ghost use Rattle.pi_dextables.specs.Codes.{catch_bytes, size_bytes, last_bytes, catches_bytes, lists_bytes, list_places, list_place, range_bytes, tries_bytes, code_item};
ghost use Rattle.pi_dextables.specs.Writable.{BodyFits};
ghost use Rattle.pi_dexlay.specs.Heads.{head_bytes, fit};

use pi_dextables::tables::{Body, Catch, Catches, Range};
use pi_parts::put::{
    put_half, put_halves, put_negative, put_sleb, put_uleb, put_word, put_words, put_zeros,
};
use std::alloc::{AllocError, Global};

/// How many handlers of a list catch a type; without its sign, where one more catches the rest.
fn put_size(out: &mut Vec<u8>, list: &Catches) -> Result<(), AllocError>
    ensures { OnOk result (out.new.items ≡ out.old.items ++ size_bytes (length list.now.typed) list.now.last) }
{
    if list.last.is_some() {
        put_negative(out, list.typed.len())?;
    } else {
        put_sleb(out, list.typed.len())?;
    }
    Ok(())
}

/// Handlers that catch a type.
fn put_typed(out: &mut Vec<u8>, typed: &[Catch]) -> Result<(), AllocError>
    ensures { OnOk result (out.new.items ≡ out.old.items ++ flat_map catch_bytes typed.now) }
{
    for handler in typed {
        put_uleb(out, handler.ty as usize)?;
        put_uleb(out, handler.to as usize)?;
    }
    Ok(())
}

/// A list of handlers.
#[tactic(auto, unfolding(pi_dextables::specs::Codes::catches_bytes))]
fn put_catches(out: &mut Vec<u8>, list: &Catches) -> Result<(), AllocError>
    ensures { OnOk result (out.new.items ≡ out.old.items ++ catches_bytes list.now) }
{
    put_size(out, list)?;
    put_typed(out, list.typed.as_slice())?;
    put_last(out, list.last)?;
    Ok(())
}

/// The handler that catches the rest, where there is one.
fn put_last(out: &mut Vec<u8>, last: Option<u32>) -> Result<(), AllocError>
    ensures { OnOk result (out.new.items ≡ out.old.items ++ last_bytes last) }
{
    if let Some(to) = last {
        put_uleb(out, to as usize)?;
    }
    Ok(())
}

/// Lists of handlers in bytes of their own, and where each begins.
#[derive(Drop)]
pub(crate) struct Lists {
    pub bytes: Vec<u8>,
    pub places: Vec<usize>,
}

/// The bytes of lists of handlers.
#[tactic(auto, unfolding(pi_dextables::specs::Codes::list_places))]
fn lists_of(alloc: Global, lists: &[Catches]) -> Result<Lists, AllocError>
    ensures bytes { IfOk result (λ made. made.bytes.items ≡ lists_bytes lists.now) }
    ensures places { IfOk result (λ made. made.places.items ≡ list_places lists.now) }
{
    let mut bytes = Vec::new(alloc);
    let mut places = Vec::new(alloc);
    put_uleb(&mut bytes, lists.len())?;
    for list in lists {
        places.push(bytes.len())?;
        put_catches(&mut bytes, list)?;
    }
    Ok(Lists { bytes, places })
}

/// Whether the place of the list of each range fits its 16 bits.
fn places_fit(ranges: &[Range], places: &[usize]) -> bool
    requires { All (λ r. r.list < length places.now) ranges.now }
    ensures { result ≡ fit places.now ranges.now }
{
    for range in ranges {
        if places[range.list as usize] > 0xffff {
            return false;
        }
    }
    true
}

/// A range of units, with the place of its list.
#[tactic(auto, unfolding(pi_dextables::specs::Codes::range_bytes))]
fn put_range(out: &mut Vec<u8>, range: &Range, places: &[usize]) -> Result<(), AllocError>
    requires { range.now.list < length places.now }
    ensures { OnOk result (out.new.items ≡ out.old.items ++ range_bytes places.now range.now) }
{
    put_word(out, range.from as usize)?;
    put_half(out, range.size as usize)?;
    put_half(out, places[range.list as usize])?;
    Ok(())
}

/// Ranges one behind the other.
fn put_ranges(out: &mut Vec<u8>, ranges: &[Range], places: &[usize]) -> Result<(), AllocError>
    requires { All (λ r. r.list < length places.now) ranges.now }
    ensures { OnOk result (out.new.items ≡ out.old.items ++ flat_map (range_bytes places.now) ranges.now) }
{
    for range in ranges {
        put_range(out, range, places)?;
    }
    Ok(())
}

/// The head of a code item and its units.
fn put_units(out: &mut Vec<u8>, body: &Body) -> Result<(), AllocError>
    ensures { OnOk result (out.new.items ≡ out.old.items ++ head_bytes body.now) }
{
    put_halves(out, &[body.registers, body.ins, body.outs])?;
    put_half(out, body.ranges.len())?;
    put_words(out, &[0, body.units.len()])?;
    put_halves(out, body.units.as_slice())?;
    Ok(())
}

/// What stands behind the units, and whether the places of its lists fit.
#[tactic(auto, using(crate::proofs::Steps::places_long, crate::proofs::Steps::ranges_named))]
fn put_tries(alloc: Global, out: &mut Vec<u8>, body: &Body) -> Result<bool, AllocError>
    requires { BodyFits body.now }
    ensures bytes { OnOk result (out.new.items ≡ out.old.items ++ tries_bytes body.now) }
    ensures fits { IfOk result (λ fits. fits ≡ fit (list_places body.now.lists) body.now.ranges) }
{
    if body.ranges.is_empty() {
        return Ok(true);
    }
    let lists = lists_of(alloc, body.lists.as_slice())?;
    put_zeros(out, body.units.len() % 2 * 2)?;
    put_ranges(out, body.ranges.as_slice(), &lists.places)?;
    out.extend_from_slice(&lists.bytes)?;
    Ok(places_fit(body.ranges.as_slice(), &lists.places))
}

/// A code item, and whether the places of its lists of handlers fit their 16 bits.
#[tactic(auto, unfolding(pi_dextables::specs::Codes::code_item))]
pub(crate) fn put_code(alloc: Global, out: &mut Vec<u8>, body: &Body) -> Result<bool, AllocError>
    requires { BodyFits body.now }
    ensures bytes { OnOk result (out.new.items ≡ out.old.items ++ code_item body.now) }
    ensures fits { IfOk result (λ fits. fits ≡ fit (list_places body.now.lists) body.now.ranges) }
{
    put_units(out, body)?;
    let fits = put_tries(alloc, out, body)?;
    Ok(fits)
}
