// What one instruction needs so that it can be laid: a form of its length, and a payload that can be laid.

ghost use Rattle.std.specs.Prelude.{◌≡◌, ◌≤◌, ◌<◌, ◌^◌, ◌==◌, ◌&&◌, ◌%◌, ◌+◌, ℕ, List, false, nat_le, nat_lt, MatchOption, length, is_some, IfOk, IfSome, IsTrue};
ghost use Rattle.std.specs.List.{list_all, list_any};
ghost use Rattle.pi_contents.specs.Named.{line_content};
ghost use Rattle.pi_insn.specs.Payloads.{is_width};
ghost use Rattle.pi_classtables.specs.Numbers.{no_pools};
ghost use Rattle.pi_classtables.specs.Layout.{data_fits, data_of, is_sparse, line_units, next_data};
ghost use Rattle.pi_dexdata.specs.Numbers.{no_text};
ghost use Rattle.pi_dexspelled.specs.Tests.{line_laid};

use pi_dexdata::payload::{is_scattered, payload};
use pi_dexforms::{Place, form};
use pi_model::describe::Line;
use pi_model::insn::Insn;
use std::alloc::{AllocError, Global};

/// The furthest that a distance reaches.
pub(crate) const FURTHEST: u32 = 1 << 31;

/// Whether items have a width that payloads know.
fn is_width(width: u16) -> bool
    ensures { result ≡ is_width width }
{
    width == 1 || width == 2 || width == 4 || width == 8
}

/// Whether an item has no more bytes than so many.
fn item_fits(width: u16, item: u64) -> bool
    requires { IsTrue (is_width width) }
    ensures { result ≡ nat_lt item (256 ^ width) }
{
    match width {
        1 => item < 256,
        2 => item < 65536,
        4 => item < 1 << 32,
        _ => true,
    }
}

/// Whether each item has no more bytes than so many.
fn items_fit(width: u16, items: &[u64]) -> bool
    requires { IsTrue (is_width width) }
    ensures { result ≡ list_all (λ x. nat_lt x (256 ^ width)) items.now }
{
    items.iter().all(|item| item_fits(width, *item))
}

/// Whether array data can be laid.
fn array_fits(width: u16, items: &[u64]) -> bool
    ensures { result ≡ is_width width && (nat_lt (length items.now) (2 ^ 32) && list_all (λ x. nat_lt x (256 ^ width)) items.now) }
{
    if !is_width(width) || items.len() >= 1 << 32 {
        return false;
    }
    items_fit(width, items)
}

/// Whether the payload of an instruction can be laid.
pub(crate) fn data_fits(insn: &Insn) -> bool
    ensures { result ≡ data_fits insn.now }
{
    match insn {
        Insn::Switch { cases, .. } => cases.len() < 65536,
        Insn::FillArray { width, items, .. } => array_fits(*width, items.as_slice()),
        _ => true,
    }
}

/// Whether an address is listed.
fn is_listed(listed: &[u32], line: u32) -> bool
    ensures { result ≡ list_any (λ at. at == line) listed.now }
{
    listed.iter().any(|at| *at == line)
}

/// Whether the payload of a switch is sparse.
#[tactic(auto, using(crate::proofs::Bare::bare_scattered))]
fn is_sparse(listed: &[u32], line: &Line) -> bool
    ensures { result ≡ is_sparse listed.now (line_content no_text line.now) }
{
    is_listed(listed, line.at) || is_scattered(&line.insn)
}

/// Whether an instruction has a form of its length, where what it names has number 0.
#[tactic(auto, using(crate::proofs::Bare::bare_bodies, crate::proofs::Bare::no_index))]
pub(crate) fn has_form(
    alloc: Global,
    listed: &[u32],
    at: u32,
    line: &Line,
) -> Result<bool, AllocError>
    requires { at ≤ 2 ^ 31 }
    ensures { IfOk result (λ b. b ≡ is_some (line_units no_pools listed.now at (line_content no_text line.now))) }
{
    let place = Place {
        units: line.units,
        index: 0,
        at: line.at,
        payload: at + at % 2,
        sparse: is_sparse(listed, line),
    };
    let form = form(alloc, &line.insn, place)?;
    Ok(form.is_some())
}

/// How many units the payload of an instruction has.
#[tactic(auto, using(crate::proofs::Bare::bare_payload))]
pub(crate) fn payload_len(alloc: Global, listed: &[u32], line: &Line) -> Result<usize, AllocError>
    requires { IsTrue (data_fits line.now.insn) }
    ensures { IfOk result (λ n. n ≡ length (data_of listed.now (line_content no_text line.now))) }
{
    let units = payload(alloc, &line.insn, line.at, is_sparse(listed, line))?;
    Ok(units.len())
}

/// Where a payload of so many units ends that is laid from an address on, None where that is further than a distance reaches.
#[tactic(auto, using(crate::proofs::Places::next_by))]
pub(crate) fn next_of(at: u32, len: usize) -> Option<u32>
    requires { at ≤ 2 ^ 31 }
    ensures { (units : List ℕ) → length units ≡ len
        → MatchOption result (nat_le (next_data at units) (2 ^ 31) ≡ false) (λ next. (next ≡ next_data at units) × (next ≤ 2 ^ 31)) }
{
    if len == 0 {
        return Some(at);
    }
    let room = FURTHEST - at;
    let odd = at % 2;
    if len > room as usize || odd > room - len as u32 {
        return None;
    }
    Some(at + odd + len as u32)
}
