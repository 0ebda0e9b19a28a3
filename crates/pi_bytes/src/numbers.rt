// Numbers at places of bytes. docs/dex-format.md states how they stand there.

ghost use Rattle.std.specs.Prelude.{◌≡◌, ◌+◌, ◌*◌, ◌≤◌, length, IfOk};
ghost use Rattle.pi_bytes.specs.Numbers.{half_at, word_at, in_file, halves_at};

use byteorder::{ByteOrder, LittleEndian};
use std::alloc::{AllocError, Global};

/// The most bytes that a file may have: 16 MiB.
pub const MOST_BYTES: usize = 0x100_0000;

/// The word that stands for an index where there is none.
pub const NO_INDEX: u32 = 0xffff_ffff;

/// Words are below this.
pub const WORD_END: u64 = 0x1_0000_0000;

/// The 16-bit number at a place.
pub fn half(file: &[u8], at: usize) -> u16
    requires { at + 2 ≤ length file.now }
    ensures { result ≡ half_at file.now at }
{
    LittleEndian::read_u16(file.split_at(at).1)
}

/// The 32-bit number at a place.
pub fn word(file: &[u8], at: usize) -> u32
    requires { at + 4 ≤ length file.now }
    ensures { result ≡ word_at file.now at }
{
    LittleEndian::read_u32(file.split_at(at).1)
}

/// Whether that many bytes from a place are in the file.
pub fn is_in_file(file: &[u8], at: usize, count: usize) -> bool
    ensures { result ≡ in_file file.now at count }
{
    at <= file.len() && count <= file.len() - at
}

/// So many halves one behind the other.
pub fn halves(alloc: Global, file: &[u8], at: usize, n: usize) -> Result<Vec<u16>, AllocError>
    requires { at + 2 * n ≤ length file.now }
    ensures { IfOk result (λ list. list.items ≡ halves_at file.now at n) }
{
    let mut list = Vec::new(alloc);
    for i in 0..n {
        list.push(half(file, at + 2 * i))?;
    }
    Ok(list)
}
