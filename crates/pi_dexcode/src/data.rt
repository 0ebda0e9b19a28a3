// What the data of payloads says: the cases of a switch, and the items of an array.

ghost use Rattle.std.specs.Prelude.{◌≡◌, ◌+◌, ◌*◌, ◌/◌, ◌%◌, ◌<◌, ◌≤◌, length, Some, IfOk};
ghost use Rattle.pi_bytes.specs.Numbers.{most_bytes};
ghost use Rattle.pi_insn.specs.Lent.{data_of};
ghost use Rattle.pi_format.specs.Rules.Lowest.{tabulation};
ghost use Rattle.pi_format.specs.Says.Insns.{case_target, item_of, cases_of, width_of, items_of};
ghost use Rattle.pi_dexcode.specs.Whole.{IsWhole, IsItems, packed_case, sparse_case};

use crate::numbers::{target, word_of};
use pi_codeitem::{signed, word};
use pi_insn::Payload;
use pi_model::insn::{Case, Cases, Items};
use std::alloc::{AllocError, Global};

/// Where a case leads.
fn case_target(at: u32, targets: &[u16], k: usize) -> u32
    requires { 2 * k + 1 < length targets.now }
    ensures { result ≡ case_target at targets.now k }
{
    target(at, signed(word(targets, 2 * k)))
}

/// A case of a packed switch, whose keys count from the first one up.
fn packed_case(at: u32, first: i32, targets: &[u16], k: usize) -> Case
    requires small { k < most_bytes }
    requires inside { 2 * k + 1 < length targets.now }
    ensures { result ≡ packed_case at first targets.now k }
{
    Case {
        key: word_of(first as i64 + k as i64),
        to: case_target(at, targets, k),
    }
}

/// A case of a sparse switch, with its key.
fn sparse_case(at: u32, keys: &[u16], targets: &[u16], k: usize) -> Case
    requires keys { 2 * k + 1 < length keys.now }
    requires inside { 2 * k + 1 < length targets.now }
    ensures { result ≡ sparse_case at keys.now targets.now k }
{
    Case {
        key: word(keys, 2 * k),
        to: case_target(at, targets, k),
    }
}

/// The cases of a packed switch, whose keys count from the first one up.
fn packed_cases(alloc: Global, at: u32, first: i32, targets: &[u16]) -> Result<Cases, AllocError>
    requires { length targets.now ≤ most_bytes }
    ensures { IfOk result (λ cases. cases ≡ tabulation (packed_case at first targets.now) 0 (length targets.now / 2)) }
{
    let mut cases = Vec::with_capacity(alloc, targets.len() / 2)?;
    for k in 0..targets.len() / 2 {
        cases.push(packed_case(at, first, targets, k))?;
    }
    Ok(Cases::from_vec(cases))
}

/// The cases of a sparse switch, each with its key.
fn sparse_cases(alloc: Global, at: u32, keys: &[u16], targets: &[u16]) -> Result<Cases, AllocError>
    requires { length keys.now ≡ length targets.now }
    ensures { IfOk result (λ cases. cases ≡ tabulation (sparse_case at keys.now targets.now) 0 (length targets.now / 2)) }
{
    let mut cases = Vec::with_capacity(alloc, targets.len() / 2)?;
    for k in 0..targets.len() / 2 {
        cases.push(sparse_case(at, keys, targets, k))?;
    }
    Ok(Cases::from_vec(cases))
}

/// The cases of the switch at an address, by its payload.
pub(crate) fn cases(alloc: Global, at: u32, payload: &Payload<'_>) -> Result<Cases, AllocError>
    requires { IsWhole (data_of payload.now) }
    ensures { IfOk result (λ cases. cases ≡ cases_of at (Some (data_of payload.now))) }
{
    match payload {
        Payload::Packed { first, targets } => packed_cases(alloc, at, *first, targets),
        Payload::Sparse { keys, targets } => sparse_cases(alloc, at, keys, targets),
        Payload::Array { .. } => Ok(Cases::new(alloc)),
    }
}

/// An item of so many bytes.
fn item(width: u16, units: &[u16], k: usize) -> u64
    requires { IsItems width (k + 1) units.now }
    ensures { result ≡ item_of width units.now k }
{
    if width == 1 {
        let unit = units[k / 2];
        return if k % 2 == 0 {
            (unit % 256) as u64
        } else {
            (unit / 256) as u64
        };
    }
    if width == 2 {
        return units[k] as u64;
    }
    if width == 4 {
        return word(units, 2 * k) as u64;
    }
    word(units, 4 * k) as u64 + (1 << 32) * word(units, 4 * k + 2) as u64
}

/// So many items.
fn all_items(alloc: Global, width: u16, size: u32, units: &[u16]) -> Result<Items, AllocError>
    requires { IsItems width size units.now }
    ensures { IfOk result (λ items. items ≡ tabulation (item_of width units.now) 0 size) }
{
    let mut items = Vec::with_capacity(alloc, size as usize)?;
    for k in 0..size as usize {
        items.push(item(width, units, k))?;
    }
    Ok(Items::from_vec(items))
}

/// The items of an array's data, by its payload.
pub(crate) fn items(alloc: Global, payload: &Payload<'_>) -> Result<Items, AllocError>
    requires { IsWhole (data_of payload.now) }
    ensures { IfOk result (λ items. items ≡ items_of (Some (data_of payload.now))) }
{
    match payload {
        Payload::Array { width, size, items } => all_items(alloc, *width, *size, items),
        _ => Ok(Items::new(alloc)),
    }
}

/// The width of the items.
pub(crate) fn width(payload: &Payload<'_>) -> u16
    ensures { result ≡ width_of (Some (data_of payload.now)) }
{
    match payload {
        Payload::Array { width, .. } => *width,
        _ => 0,
    }
}
