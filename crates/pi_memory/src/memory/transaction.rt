// Marks that move up, and transactions.

ghost use Rattle.std.specs.Prelude.{◌≡◌, ◌+◌, ◌%◌, ◌<◌, ◌≤◌, ◌↔◌, length, Some, None, IfSome, IfNone, IsSome, IsNone, IsSomeAnd, OnOk, OnErr, OnSome};
ghost use Rattle.pi_memory.specs.Space.{mark_of};
ghost use Rattle.pi_memory.specs.Memory.{space_at, with_zeros_in, IsOn};

use crate::memory::{Memory, Saved};
use pi_model::numbers::{Addr, SpaceNo};
use std::alloc::{AllocError, Global};

impl<'a> Memory<'a> {
    /// The space of the transaction that is pending.
    pub fn pending(&self) -> Option<SpaceNo>
        ensures some { IfSome result (λ s. IsSomeAnd self.now.undo (λ u. u.space ≡ s.0)) }
        ensures none { IfNone result (self.now.undo ≡ None) }
    {
        match &self.saved {
            Some(saved) => Some(saved.space),
            None => None,
        }
    }

    /// Moves the mark of a space `n` bytes up, over bytes that are 0, and gives the place of the first of them: the mark
    /// as it was. `None` where the end would be passed; then nothing is changed.
    pub fn bump(&mut self, s: SpaceNo, n: u64) -> Option<Addr>
        requires added { s.0 < length self.old.spaces }
        requires whole { n % 8 ≡ 0 }
        requires inside { IsOn self.old.undo s.0 }
        ensures none { IsNone result ↔ ((space_at self.old.spaces s.0).end < mark_of (space_at self.old.spaces s.0) + n) }
        ensures room { OnSome result (mark_of (space_at self.old.spaces s.0) + n ≤ (space_at self.old.spaces s.0).end) }
        ensures place { IfSome result (λ at. at.0 ≡ mark_of (space_at self.old.spaces s.0)) }
        ensures bumped { OnSome result (self.new.spaces ≡ with_zeros_in self.old.spaces s.0 n) }
        ensures stands { IfNone result (self.new.spaces ≡ self.old.spaces) }
        ensures pending { self.new.undo ≡ self.old.undo }
    {
        let range = &mut self.ranges[s.0 as usize];
        let mark = range.mark();
        if n > (range.end() - mark) as u64 {
            return None;
        }
        range.grow(n as u32);
        Some(Addr(mark))
    }

    /// Begins a transaction on a space.
    pub fn begin(&mut self, alloc: Global, s: SpaceNo) -> Result<(), AllocError>
        requires added { s.0 < length self.old.spaces }
        requires idle { self.old.undo ≡ None }
        ensures spaces { self.new.spaces ≡ self.old.spaces }
        ensures begun { OnOk result (self.new.undo ≡ Some (record { space = s.0; before = self.old.spaces })) }
        ensures refused { OnErr result (self.new.undo ≡ None) }
    {
        let bytes = Vec::from_slice(alloc, self.ranges[s.0 as usize].bytes())?;
        self.saved = Some(Saved { space: s, bytes });
        Ok(())
    }

    /// Ends the transaction and keeps what it did.
    pub fn commit(&mut self)
        requires pending { IsSome self.old.undo }
        ensures spaces { self.new.spaces ≡ self.old.spaces }
        ensures ended { self.new.undo ≡ None }
    {
        self.saved = None;
    }

    /// Ends the transaction and gives the spaces as they were when it began.
    pub fn abort(&mut self)
        requires pending { IsSome self.old.undo }
        ensures spaces { IsSomeAnd self.old.undo (λ u. self.new.spaces ≡ u.before) }
        ensures ended { self.new.undo ≡ None }
    {
        match self.saved.take() {
            Some(saved) => self.ranges[saved.space.0 as usize].restore(saved.bytes.as_slice()),
            None => unreachable!(),
        }
    }
}
