// A stack of frames in one store of words. The top frame stands first in the words that are taken, which are the last
// ones of the store; a frame is its method, its pc, the number of its registers, a word to spare, and its registers.

ghost use Rattle.std.specs.Prelude.{◌≡◌, ◌+◌, ◌∷◌, ◌++◌, [], ◌<◌, ◌≤◌, ◌↔◌, ◌^◌, Some, drop, length, replicate, slice_get, IfNone, IfOk, IsNone, IsSomeAnd, OnSome};
ghost use Rattle.pi_frames.specs.Frames.{HasRegister, all_words, fresh, with_pc, with_register};

use pi_model::numbers::MethodNo;
use std::alloc::{AllocError, Global};
use std::marker::Model;

/// The frames of the machine, whose words are limited. A frame takes four words besides its registers.
#[derive(Drop)]
pub struct Frames {
    words: Vec<u32>,
    top: usize,
    depth: u32,
}

impl Model for Frames {
    ghost use Rattle.std.specs.Prelude.{drop, length};
    ghost use Rattle.pi_frames.specs.Frames.{Stack, frames_in, IsKept};

    ghost Value = { Stack };

    ghost view = { λ s. record { frames = frames_in s.depth (drop s.top s.words.items); limit = length s.words.items } };

    ghost invariant = { λ s. IsKept s.words.items s.top s.depth };
}

impl Frames {
    /// No frames, and room for that many words. All memory is taken here.
    pub fn new(alloc: Global, words: u32) -> Result<Frames, AllocError>
        ensures frames { IfOk result (λ s. s.frames ≡ []) }
        ensures limit { IfOk result (λ s. s.limit ≡ words) }
    {
        let mut store = Vec::new(alloc);
        store.resize(words as usize, 0)?;
        Ok(Frames {
            words: store,
            top: words as usize,
            depth: 0,
        })
    }

    /// Puts a frame of that many registers on top, whose registers and pc are 0; takes no memory. `None` where the words
    /// of all frames would pass the limit.
    pub fn push(&mut self, m: MethodNo, regs: u16) -> Option<()>
        ensures pushed { OnSome result (self.new.frames ≡ fresh m regs ∷ self.old.frames) }
        ensures full { IsNone result ↔ (self.old.limit < all_words self.old.frames + (regs + 4)) }
        ensures refused { IfNone result (self.new.frames ≡ self.old.frames) }
        ensures limit { self.new.limit ≡ self.old.limit }
    {
        let size = regs as usize + 4;
        if size > self.top {
            return None;
        }
        let top = self.top - size;
        lay(self.words.as_mut_slice(), top, m, regs);
        self.top = top;
        self.depth += 1;
        Some(())
    }

    /// Takes the top frame away.
    pub fn pop(&mut self)
        requires { 0 < length self.old.frames }
        ensures rest { self.new.frames ≡ drop 1 self.old.frames }
        ensures limit { self.new.limit ≡ self.old.limit }
    {
        self.top += self.words[self.top + 2] as usize + 4;
        self.depth -= 1;
    }

    /// The method of the top frame.
    pub fn method(&self) -> MethodNo
        requires { 0 < length self.now.frames }
        ensures { IsSomeAnd (slice_get self.now.frames 0) (λ f. f.method ≡ result) }
    {
        MethodNo(self.words[self.top])
    }

    /// A register of the top frame.
    pub fn reg(&self, i: u16) -> u32
        requires { HasRegister self.now.frames i }
        ensures { IsSomeAnd (slice_get self.now.frames 0) (λ f. slice_get f.regs i ≡ Some result) }
    {
        self.words[self.top + 4 + i as usize]
    }

    /// Puts a word into a register of the top frame.
    pub fn set(&mut self, i: u16, v: u32)
        requires { HasRegister self.old.frames i }
        ensures frames { self.new.frames ≡ with_register i v self.old.frames }
        ensures limit { self.new.limit ≡ self.old.limit }
    {
        let place = self.top + 4 + i as usize;
        self.words[place] = v;
    }

    /// The unit of its code at which the top frame goes on.
    pub fn pc(&self) -> u32
        requires { 0 < length self.now.frames }
        ensures { IsSomeAnd (slice_get self.now.frames 0) (λ f. f.pc ≡ result) }
    {
        self.words[self.top + 1]
    }

    /// Makes the top frame go on at another unit of its code.
    pub fn set_pc(&mut self, at: u32)
        requires { 0 < length self.old.frames }
        ensures frames { self.new.frames ≡ with_pc at self.old.frames }
        ensures limit { self.new.limit ≡ self.old.limit }
    {
        let place = self.top + 1;
        self.words[place] = at;
    }

    /// The number of frames.
    pub fn depth(&self) -> u32
        ensures { result ≡ length self.now.frames }
    {
        self.depth
    }
}

/// Writes a new frame into a store of words, from a place on.
fn lay(words: &mut [u32], top: usize, m: MethodNo, regs: u16)
    requires { top + (regs + 4) ≤ length words.old }
    ensures len { length words.new ≡ length words.old }
    ensures laid { drop top words.new ≡ m.0 ∷ 0 ∷ regs ∷ 0 ∷ (replicate regs 0 ++ drop (top + (regs + 4)) words.old) }
{
    let end = top + (regs as usize + 4);
    words[top..end].fill(0);
    words[top] = m.0;
    words[top + 2] = regs as u32;
}
