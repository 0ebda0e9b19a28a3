// The ranges of a code item that have handlers.

ghost use Rattle.std.specs.Prelude.{◌≡◌, ◌+◌, ◌*◌, ◌^◌, ◌<◌, ◌≤◌, length, true};
ghost use Rattle.pi_bytes.specs.Numbers.{word_end};
ghost use Rattle.pi_format.specs.Rules.Entries.{each_from};
ghost use Rattle.pi_format.specs.Rules.CodeItems.{code_head, code_lies, tries_at, lists_at, try_range, range_holds, ranges_hold};

use crate::heads::{CodeHead, head};
use pi_bytes::numbers::{half, is_in_file, word};
use std::marker::Model;

/// A range of units with handlers: its first unit, how many it has, and where its list of handlers stands behind the
/// beginning of the lists.
#[derive(Clone, Copy, Debug)]
pub struct TryRange {
    pub from: u32,
    pub size: u16,
    pub handlers: u16,
}

impl Model for TryRange {
    ghost use Rattle.pi_format.specs.Rules.CodeItems.{TryRange as Range};

    ghost Value = { Range };

    ghost view = { λ r. record { from = r.from; size = r.size; handlers = r.handlers } };

    ghost inverse = { λ r. record { from = r.from; size = r.size; handlers = r.handlers } };
}

/// Where the ranges begin.
pub(crate) fn tries_at(at: usize, head: &CodeHead) -> usize
    requires { at < word_end }
    ensures value { result ≡ tries_at at head.now }
    ensures small { result < 2 ^ 34 }
{
    let units = head.units as usize;
    at + 16 + 2 * (units + units % 2)
}

/// Where the lists of handlers begin: behind the ranges.
pub fn lists_at(at: usize, head: &CodeHead) -> usize
    requires { at < word_end }
    ensures { result ≡ lists_at at head.now }
{
    tries_at(at, head) + 8 * head.tries as usize
}

/// A range of those that begin at a place.
pub(crate) fn range(file: &[u8], begin: usize, k: usize) -> TryRange
    requires { begin + 8 * k + 8 ≤ length file.now }
    ensures { result ≡ try_range file.now begin k }
{
    TryRange {
        from: word(file, begin + 8 * k),
        size: half(file, begin + 8 * k + 4),
        handlers: half(file, begin + 8 * k + 6),
    }
}

/// The unit behind a range.
fn end(file: &[u8], begin: usize, k: usize) -> usize
    requires { begin + 8 * k + 8 ≤ length file.now }
    ensures { result ≡ (try_range file.now begin k).from + (try_range file.now begin k).size }
{
    word(file, begin + 8 * k) as usize + half(file, begin + 8 * k + 4) as usize
}

/// Whether a range ends in the code, and begins no earlier than the one before it ends.
fn range_holds(file: &[u8], begin: usize, units: u32, k: usize) -> bool
    requires { begin + 8 * k + 8 ≤ length file.now }
    ensures { result ≡ range_holds file.now begin units k }
{
    end(file, begin, k) <= units as usize
        && (k == 0 || end(file, begin, k - 1) <= word(file, begin + 8 * k) as usize)
}

/// Whether each of so many ranges holds.
fn each_holds(file: &[u8], begin: usize, units: u32, n: usize) -> bool
    requires { begin + 8 * n ≤ length file.now }
    ensures { result ≡ each_from (range_holds file.now begin units) 0 n }
{
    for k in 0..n {
        if !range_holds(file, begin, units, k) {
            return false;
        }
    }
    true
}

/// Whether the ranges of a code item are in the file and hold.
pub fn ranges_hold(file: &[u8], at: usize, head: &CodeHead) -> bool
    requires { at < word_end }
    ensures { result ≡ ranges_hold file.now at head.now }
{
    let begin = tries_at(at, head);
    let n = head.tries as usize;
    is_in_file(file, begin, 8 * n) && each_holds(file, begin, head.units, n)
}

/// A range of a code item whose ranges hold.
pub fn try_range(file: &[u8], at: usize, k: usize) -> TryRange
    requires small { at < word_end }
    requires lies { code_lies file.now at ≡ true }
    requires hold { ranges_hold file.now at (code_head file.now at) ≡ true }
    requires counted { k < (code_head file.now at).tries }
    ensures { result ≡ try_range file.now (tries_at at (code_head file.now at)) k }
{
    let head = head(file, at);
    range(file, tries_at(at, &head), k)
}
