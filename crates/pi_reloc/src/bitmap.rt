// A map of places that are marked or not, kept one bit a place, the low bit first, in whole bytes.

ghost use Rattle.std.specs.Prelude.{◌≡◌, ◌<◌, false, true, Some, length, replicate, slice_get, slice_set, IfOk};

use std::alloc::{AllocError, Global};
use std::marker::Model;

/// Places from 0, each marked or not.
#[derive(Debug, Drop)]
pub struct Bitmap {
    bits: Vec<u8>,
    words: u32,
}

impl Model for Bitmap {
    ghost use Rattle.std.specs.Prelude.{List, Bool, ◌≡◌, ◌+◌, ◌/◌, length};
    ghost use Rattle.pi_reloc.specs.Bitmap.{marks_in};

    ghost Value = { List Bool };

    ghost view = { λ m. marks_in m.words m.bits.items };

    ghost invariant = { λ m. length m.bits.items ≡ (m.words + 7) / 8 };
}

impl Bitmap {
    /// A map of that many places, none of them marked.
    pub fn new(alloc: Global, words: u32) -> Result<Bitmap, AllocError>
        ensures { IfOk result (λ map. map ≡ replicate words false) }
    {
        let bits = vec![in alloc; 0; words.div_ceil(8) as usize]?;
        Ok(Bitmap { bits, words })
    }

    /// The number of places.
    pub fn words(&self) -> u32
        ensures { result ≡ length self.now }
    {
        self.words
    }

    /// Marks a place; takes no memory.
    pub fn mark(&mut self, i: u32)
        requires { i < length self.old }
        ensures { self.new ≡ slice_set self.old i true }
    {
        self.bits[(i / 8) as usize] |= 1 << (i % 8);
    }

    /// Whether a place is marked.
    pub fn has(&self, i: u32) -> bool
        requires { i < length self.now }
        ensures { slice_get self.now i ≡ Some result }
    {
        (self.bits[(i / 8) as usize] >> (i % 8)) & 1 == 1
    }
}
