// Instructions one by one, with the nops before their payloads among the instructions behind them.

ghost use Rattle.std.specs.Prelude.{◌≡◌, ◌≤◌, ◌^◌, ℕ, List, length, None, Some, if◌then◌else◌, nat_le, IfOk, MatchOption};
ghost use Rattle.pi_contents.specs.Named.{line_content};
ghost use Rattle.pi_classtables.specs.Layout.{data_of, next_data};
ghost use Rattle.pi_dexdata.specs.Numbers.{no_text};
ghost use Rattle.pi_dexspelled.specs.Tests.{is_nop, is_pad, behind_nop, behind_pad, behind_line, behind_lines, contents, IsBehind};

use crate::insns::{data_fits, has_form, next_of, payload_len};
use pi_model::describe::Line;
use pi_model::insn::Insn;
use std::alloc::{AllocError, Global};

/// Whether an instruction is a nop.
fn is_nop(insn: &Insn) -> bool
    ensures { result ≡ is_nop insn.now }
{
    match insn {
        Insn::Nop => true,
        _ => false,
    }
}

/// Whether an instruction is the nop at an address.
#[tactic(auto, using(crate::proofs::Bare::pad_of))]
fn is_pad(at: u32, line: &Line) -> bool
    ensures { result ≡ is_pad at (line_content no_text line.now) }
{
    line.at == at && line.units == 1 && is_nop(&line.insn)
}

/// The instructions behind the nop at an address, None where the first is not that.
fn behind_nop(at: u32, rest: &[Line]) -> Option<&[Line]>
    ensures { MatchOption result (behind_nop at (contents rest.now) ≡ None) (λ behind. behind_nop at (contents rest.now) ≡ Some (contents behind.now)) }
{
    match rest {
        [first, behind @ ..] if is_pad(at, first) => Some(behind),
        _ => None,
    }
}

/// The instructions behind the nop that a payload of so many units needs at an address, None where the first is not that.
#[tactic(auto, using(crate::proofs::Places::pad_by))]
fn behind_pad(at: u32, len: usize, rest: &[Line]) -> Option<&[Line]>
    ensures { (units : List ℕ) → length units ≡ len
        → MatchOption result (behind_pad at units (contents rest.now) ≡ None) (λ behind. behind_pad at units (contents rest.now) ≡ Some (contents behind.now)) }
{
    if len == 0 || at % 2 == 0 {
        return Some(rest);
    }
    behind_nop(at, rest)
}

/// Where the payload of an instruction ends, and the instructions that are left behind its nop.
#[derive(Clone, Copy)]
struct Behind<'a> {
    at: u32,
    rest: &'a [Line],
}

/// What stands behind a payload of so many units.
fn behind_payload(at: u32, len: usize, rest: &[Line]) -> Option<Behind<'_>>
    requires { at ≤ 2 ^ 31 }
    ensures { (units : List ℕ) → length units ≡ len → MatchOption result ((if nat_le (next_data at units) (2 ^ 31) then behind_pad at units (contents rest.now) else None) ≡ None)
        (λ b. ((if nat_le (next_data at units) (2 ^ 31) then behind_pad at units (contents rest.now) else None) ≡ Some (contents b.rest.now))
        × ((b.at ≡ next_data at units) × (b.at ≤ 2 ^ 31))) }
{
    let next = next_of(at, len)?;
    let rest = behind_pad(at, len, rest)?;
    Some(Behind { at: next, rest })
}

/// An instruction with its payload, None where it is not laid so.
#[tactic(auto, using(crate::proofs::Bare::bare_fits))]
fn behind_line<'a>(
    alloc: Global,
    listed: &[u32],
    at: u32,
    line: &Line,
    rest: &'a [Line],
) -> Result<Option<Behind<'a>>, AllocError>
    requires { at ≤ 2 ^ 31 }
    ensures { IfOk result (λ o. MatchOption o (behind_line listed.now at (line_content no_text line.now) (contents rest.now) ≡ None)
        (λ b. IsBehind listed.now at (line_content no_text line.now) (contents rest.now) b.at (contents b.rest.now))) }
{
    if !data_fits(&line.insn) || !has_form(alloc, listed, at, line)? {
        return Ok(None);
    }
    let len = payload_len(alloc, listed, line)?;
    Ok(behind_payload(at, len, rest))
}

/// The address behind the payloads of instructions, None where one of them is not laid so, or where those behind are not just the
/// nops before payloads.
pub(crate) fn behind_lines(
    alloc: Global,
    listed: &[u32],
    start: u32,
    lines: &[Line],
    behind: &[Line],
) -> Result<Option<u32>, AllocError>
    requires { start ≤ 2 ^ 31 }
    ensures { IfOk result (λ end. end ≡ behind_lines listed.now start (contents lines.now) (contents behind.now)) }
{
    let mut at = start;
    let mut rest = behind;
    for line in lines {
        match behind_line(alloc, listed, at, line, rest)? {
            Some(behind) => {
                at = behind.at;
                rest = behind.rest;
            }
            None => return Ok(None),
        }
    }
    Ok(if rest.is_empty() { Some(at) } else { None })
}
