// Memory: its spaces in the order of adding, and what a pending transaction needs to be undone.

ghost use Rattle.std.specs.Prelude.{◌≡◌, ◌+◌, ◌*◌, ◌%◌, ◌^◌, ◌<◌, ◌≤◌, ◌↔◌, [], ◌∷◌, ◌++◌, length, position, Some, None, IfOk, IfSome, IfNone, IsSome, IsNone, IsSomeAnd, OnOk, OnErr, OnSome, IsTrue};
ghost use Rattle.std.specs.List.{list_all};
ghost use Rattle.std.specs.Option.{ForSome};
ghost use Rattle.pi_memory.specs.Space.{mark_of, apart, holds};
ghost use Rattle.pi_memory.specs.Memory.{space_at, holder, IsBelow, IsFree, AreLaid, IsBegun};

mod bytes;
mod transaction;

use crate::range::Range;
use pi_model::numbers::{Addr, SpaceNo};
use std::alloc::{AllocError, Global};
use std::marker::Model;

/// The bytes of a space at the beginning of the transaction on it.
#[derive(Drop)]
struct Saved {
    space: SpaceNo,
    bytes: Vec<u8>,
}

impl Model for Saved {
    ghost use Rattle.pi_memory.specs.Kept.{Copy};

    ghost Value = { Copy };

    ghost view = { λ s. record { space = s.space.0; bytes = s.bytes.items } };
}

/// Up to nine spaces of bytes. Each has a base, a fill mark and an end, and is numbered in the order of adding.
#[derive(Drop)]
pub struct Memory<'a> {
    ranges: Vec<Range<'a>>,
    saved: Option<Saved>,
}

impl<'a> Model for Memory<'a> {
    ghost use Rattle.pi_memory.specs.Memory.{Store};
    ghost use Rattle.pi_memory.specs.Kept.{IsKept, undo_of};

    ghost Value = { Store };

    ghost view = { λ m. record { spaces = m.ranges.items; undo = undo_of m.ranges.items m.saved } };

    ghost invariant = { λ m. IsKept m.ranges.items m.saved };
}

impl<'a> Memory<'a> {
    /// Memory of no space, which takes no memory.
    pub fn new(alloc: Global) -> Memory<'a>
        ensures spaces { result.spaces ≡ [] }
        ensures pending { result.undo ≡ None }
    {
        Memory {
            ranges: Vec::new(alloc),
            saved: None,
        }
    }

    /// Adds a space with these bytes at `base`, and reserves its range up to, not including, `end`.
    pub fn add(
        &mut self,
        alloc: Global,
        base: Addr,
        bytes: &[u8],
        end: Addr,
    ) -> Result<SpaceNo, AllocError>
        requires idle { self.old.undo ≡ None }
        requires few { length self.old.spaces < 9 }
        requires free { IsFree self.old.spaces base.0 end.0 }
        requires low { end.0 ≤ 2 ^ 31 }
        requires fits { base.0 + length bytes.now ≤ end.0 }
        requires base_is_whole { base.0 % 8 ≡ 0 }
        requires bytes_are_whole { length bytes.now % 8 ≡ 0 }
        ensures added { OnOk result (self.new.spaces ≡ self.old.spaces ++ record { base = base.0; bytes = bytes.now; end = end.0 } ∷ []) }
        ensures number { IfOk result (λ s. s.0 ≡ length self.old.spaces) }
        ensures refused { OnErr result (self.new.spaces ≡ self.old.spaces) }
        ensures pending { self.new.undo ≡ self.old.undo }
    {
        let range = Range::new(alloc, base.0, bytes, end.0)?;
        let number = self.ranges.len() as u8;
        self.ranges.push(range)?;
        Ok(SpaceNo(number))
    }

    /// The base of a space.
    pub fn base(&self, s: SpaceNo) -> Addr
        requires { s.0 < length self.now.spaces }
        ensures { result.0 ≡ (space_at self.now.spaces s.0).base }
    {
        Addr(self.ranges[s.0 as usize].base())
    }

    /// The fill mark of a space: the address behind its last byte.
    pub fn mark(&self, s: SpaceNo) -> Addr
        requires { s.0 < length self.now.spaces }
        ensures { result.0 ≡ mark_of (space_at self.now.spaces s.0) }
    {
        Addr(self.ranges[s.0 as usize].mark())
    }

    /// The end of a space: the address behind its range.
    pub fn end(&self, s: SpaceNo) -> Addr
        requires { s.0 < length self.now.spaces }
        ensures { result.0 ≡ (space_at self.now.spaces s.0).end }
    {
        Addr(self.ranges[s.0 as usize].end())
    }

    /// The number of spaces, at most nine.
    pub fn spaces(&self) -> u8
        ensures value { result ≡ length self.now.spaces }
        ensures few { result ≤ 9 }
    {
        self.ranges.len() as u8
    }

    /// Whether no address from `base` up to, not including, `end` is in the range of a space.
    pub fn is_free(&self, base: Addr, end: Addr) -> bool
        ensures { IsTrue result ↔ IsFree self.now.spaces base.0 end.0 }
    {
        self.all_apart(base.0, end.0)
    }

    fn all_apart(&self, base: u32, end: u32) -> bool
        ensures { result ≡ list_all (apart base end) self.now.spaces }
    {
        self.ranges.iter().all(|range| range.is_apart(base, end))
    }

    /// The space in which `n` bytes from `at` on stand, all of them below its mark.
    pub fn space_of(&self, at: Addr, n: u32) -> Option<SpaceNo>
        ensures some { IfSome result (λ s. s.0 ≡ holder self.now.spaces at.0 n) }
        ensures below { OnSome result (IsBelow self.now.spaces at.0 n) }
        ensures none { IfNone result (length self.now.spaces ≤ holder self.now.spaces at.0 n) }
    {
        self.keeps();
        match self.find(at, n) {
            Some(k) => Some(SpaceNo(k as u8)),
            None => None,
        }
    }

    /// What is true of memory at every moment: the ranges are apart, and a transaction began with the same ranges, in
    /// which only its own space had other bytes, and no more of them.
    pub fn keeps(&self)
        ensures laid { AreLaid self.now.spaces }
        ensures few { length self.now.spaces ≤ 9 }
        ensures begun { ForSome self.now.undo (IsBegun self.now.spaces) }
    {
        let _ = &self.ranges;
    }

    fn find(&self, at: Addr, n: u32) -> Option<usize>
        ensures { result ≡ position (holds at.0 n) self.now.spaces }
    {
        self.ranges.iter().position(|range| range.holds(at.0, n))
    }

    fn holder(&self, at: Addr, n: u32) -> usize
        requires { IsBelow self.now.spaces at.0 n }
        ensures { result ≡ holder self.now.spaces at.0 n }
    {
        match self.find(at, n) {
            Some(k) => k,
            None => unreachable!(),
        }
    }
}
