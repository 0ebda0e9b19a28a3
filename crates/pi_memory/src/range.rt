// One space: the bytes below its mark, in a buffer with room for the whole range.

ghost use Rattle.std.specs.Prelude.{◌≡◌, ◌+◌, ◌-◌, ◌^◌, ◌<◌, ◌≤◌, ◌↔◌, length, take, drop, IfOk, IsTrue};
ghost use Rattle.pi_memory.specs.Space.{mark_of, apart, holds, bytes_in, with_bytes, with_zeros};

use std::alloc::{AllocError, Global};
use std::marker::{Model, PhantomData};

#[derive(Drop)]
pub struct Range<'a> {
    base: u32,
    end: u32,
    bytes: Vec<u8>,
    // No space lends its content yet: the lifetime is that of the contents that spaces will lend.
    lent: PhantomData<&'a [u8]>,
}

impl<'a> Model for Range<'a> {
    ghost use Rattle.std.specs.Prelude.{◌+◌, ◌^◌, ◌≤◌, vec_len, vec_capacity};
    ghost use Rattle.pi_memory.specs.Space.{Space};

    ghost Value = { Space };

    ghost view = { λ r. record { base = r.base; bytes = r.bytes.items; end = r.end } };

    ghost invariant = { λ r. (r.base + vec_len r.bytes ≤ r.end) × (r.end ≤ 2 ^ 31) × (r.end ≤ r.base + vec_capacity r.bytes) };
}

impl<'a> Range<'a> {
    /// The space of those bytes; reserves room up to `end`.
    pub fn new(alloc: Global, base: u32, bytes: &[u8], end: u32) -> Result<Range<'a>, AllocError>
        requires fits { base + length bytes.now ≤ end }
        requires low { end ≤ 2 ^ 31 }
        ensures { IfOk result (λ r. r ≡ record { base = base; bytes = bytes.now; end = end }) }
    {
        let mut kept = Vec::with_capacity(alloc, (end - base) as usize)?;
        match kept.extend_from_slice(bytes) {
            Ok(()) => Ok(Range {
                base,
                end,
                bytes: kept,
                lent: PhantomData,
            }),
            Err(_) => unreachable!(),
        }
    }

    pub fn base(&self) -> u32
        ensures { result ≡ self.now.base }
    {
        self.base
    }

    pub fn mark(&self) -> u32
        ensures value { result ≡ mark_of self.now }
        ensures within { result ≤ self.now.end }
    {
        self.base + self.bytes.len() as u32
    }

    pub fn end(&self) -> u32
        ensures { result ≡ self.now.end }
    {
        self.end
    }

    /// Whether `n` bytes from `at` on stand below the mark.
    pub fn holds(&self, at: u32, n: u32) -> bool
        ensures { result ≡ holds at n self.now }
    {
        self.base <= at && at as u64 + n as u64 <= self.mark() as u64
    }

    /// Whether no address from `base` up to `end` is in the range.
    pub fn is_apart(&self, base: u32, end: u32) -> bool
        ensures { result ≡ apart base end self.now }
    {
        end <= self.base || self.end <= base || end <= base || self.end <= self.base
    }

    pub fn bytes(&self) -> &[u8]
        ensures { result.now ≡ self.now.bytes }
    {
        self.bytes.as_slice()
    }

    /// The `n` bytes from `at` on.
    pub fn part(&self, at: u32, n: u32) -> &[u8]
        requires { IsTrue (holds at n self.now) }
        ensures value { result.now ≡ bytes_in at n self.now }
        ensures long { length result.now ≡ n }
    {
        let start = (at - self.base) as usize;
        &self.bytes[start..start + n as usize]
    }

    pub fn put(&mut self, at: u32, bytes: &[u8])
        requires { IsTrue (holds at (length bytes.now) self.old) }
        ensures { self.new ≡ with_bytes at bytes.now self.old }
    {
        let start = (at - self.base) as usize;
        self.bytes[start..start + bytes.len()].copy_from_slice(bytes);
    }

    /// Adds `n` bytes that are 0.
    pub fn grow(&mut self, n: u32)
        requires { mark_of self.old + n ≤ self.old.end }
        ensures { self.new ≡ with_zeros n self.old }
    {
        let long = self.bytes.len() + n as usize;
        match self.bytes.resize(long, 0) {
            Ok(()) => (),
            Err(_) => unreachable!(),
        }
    }

    /// Makes these bytes those of the space.
    pub fn restore(&mut self, bytes: &[u8])
        requires { length bytes.now ≤ length self.old.bytes }
        ensures { self.new ≡ record self.old { bytes = bytes.now } }
    {
        self.bytes.truncate(bytes.len());
        self.bytes.copy_from_slice(bytes);
    }
}
