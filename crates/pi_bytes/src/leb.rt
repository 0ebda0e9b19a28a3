// leb128 numbers at the front of bytes, with how many bytes they take. docs/dex-format.md states how they stand there.

ghost use Rattle.std.specs.Prelude.{◌≡◌, ◌+◌, ◌%◌, ◌<◌, ◌≤◌, ◌↔◌, ℕ, ℤ, List, [], ◌∷◌, ◌++◌, length, Ok, Err, IfOk};
ghost use Rattle.pi_bytes.specs.Leb.{uleb_by, sleb_by, last_signed, uleb_at, sleb_at, sevens, signed_sevens, ends_uleb, ends_sleb, IsWhole, EndsInside, IsTooLong};
ghost use Rattle.pi_bytes.specs.Place.{Place, bytes_from, place_behind, bytes_between};

use crate::fault::ReadFault;

/// The bits of a byte below the one that says that more follow.
fn low_bits(byte: u8) -> u32
    ensures value { result ≡ byte % 128 }
    ensures bound { result < 128 }
{
    (byte % 128) as u32
}

/// An unsigned number, and how many bytes it takes.
pub(crate) fn uleb_of(bytes: &[u8]) -> Result<(u32, usize), ReadFault>
    ensures value { result ≡ uleb_by 4 bytes.now }
    ensures within { IfOk result (λ x. x.1 ≤ length bytes.now) }
{
    match bytes {
        [a, ..] if *a < 128 => Ok((*a as u32, 1)),
        [a, b, ..] if *b < 128 => Ok((low_bits(*a) + 128 * *b as u32, 2)),
        [a, b, c, ..] if *c < 128 => Ok((low_bits(*a) + 128 * (low_bits(*b) + 128 * *c as u32), 3)),
        [a, b, c, d, ..] if *d < 128 => {
            let above = low_bits(*c) + 128 * *d as u32;
            Ok((low_bits(*a) + 128 * (low_bits(*b) + 128 * above), 4))
        }
        [a, b, c, d, e, ..] if *e < 16 => {
            let above = low_bits(*c) + 128 * (low_bits(*d) + 128 * *e as u32);
            Ok((low_bits(*a) + 128 * (low_bits(*b) + 128 * above), 5))
        }
        [_, _, _, _, _, ..] => Err(ReadFault::LongLeb),
        _ => Err(ReadFault::Short),
    }
}

/// The seven bits of a last byte as a signed number.
fn signed_bits(byte: u8) -> i32
    ensures { result ≡ last_signed byte }
{
    if byte < 64 {
        byte as i32
    } else {
        byte as i32 - 128
    }
}

/// Whether a fifth byte ends a signed number.
fn ends_signed(byte: u8) -> bool
    ensures { result ≡ ends_sleb byte }
{
    byte < 8 || (120 <= byte && byte < 128)
}

/// A signed number in which at most that many bytes stand before the last, and how many bytes it takes.
fn signed_by(more: u8, bytes: &[u8]) -> Result<(i32, usize), ReadFault>
    requires { more ≤ 4 }
    ensures value { result ≡ sleb_by more bytes.now }
    ensures within { IfOk result (λ x. x.1 ≤ length bytes.now) }
    ensures few { IfOk result (λ x. x.1 ≤ more + 1) }
{
    let [first, rest @ ..] = bytes else {
        return Err(ReadFault::Short);
    };
    if more == 0 {
        return last_by(*first);
    }
    if *first < 128 {
        return Ok((signed_bits(*first), 1));
    }
    let (above, taken) = signed_by(more - 1, rest)?;
    Ok((low_bits(*first) as i32 + 128 * above, taken + 1))
}

/// The number that a fifth byte ends, by its bits alone.
fn last_by(byte: u8) -> Result<(i32, usize), ReadFault>
    ensures value { result ≡ sleb_by 0 (byte ∷ []) }
    ensures one { IfOk result (λ x. x.1 ≡ 1) }
{
    if ends_signed(byte) {
        Ok((signed_bits(byte), 1))
    } else {
        Err(ReadFault::LongLeb)
    }
}

/// A signed number, and how many bytes it takes.
pub(crate) fn sleb_of(bytes: &[u8]) -> Result<(i32, usize), ReadFault>
    ensures value { result ≡ sleb_by 4 bytes.now }
    ensures within { IfOk result (λ x. x.1 ≤ length bytes.now) }
{
    signed_by(4, bytes)
}

/// The laws of uleb128 numbers at a place: what was read where one is, when each fault comes, and that a whole number is
/// read, whatever follows.
pub fn uleb_laws()
    ensures value { (p q : Place) (x : ℕ) → uleb_at p ≡ Ok (x, q) → x ≡ sevens (bytes_between p q) }
    ensures whole { (p q : Place) (x : ℕ) → uleb_at p ≡ Ok (x, q) → IsWhole ends_uleb 4 (bytes_between p q) }
    ensures moved { (p q : Place) (x : ℕ) → uleb_at p ≡ Ok (x, q) → q ≡ place_behind (length (bytes_between p q)) p }
    ensures short { (p : Place) → (uleb_at p ≡ Err ReadFault.Short) ↔ EndsInside 4 (bytes_from p) }
    ensures long { (p : Place) → (uleb_at p ≡ Err ReadFault.LongLeb) ↔ IsTooLong ends_uleb 4 (bytes_from p) }
    ensures again { (p : Place) (bytes rest : List ℕ) → IsWhole ends_uleb 4 bytes → bytes_from p ≡ bytes ++ rest → uleb_at p ≡ Ok (sevens bytes, place_behind (length bytes) p) }
{}

/// The laws of sleb128 numbers at a place: what was read where one is, when each fault comes, and that a whole number is
/// read, whatever follows.
pub fn sleb_laws()
    ensures value { (p q : Place) (x : ℤ) → sleb_at p ≡ Ok (x, q) → x ≡ signed_sevens (bytes_between p q) }
    ensures whole { (p q : Place) (x : ℤ) → sleb_at p ≡ Ok (x, q) → IsWhole ends_sleb 4 (bytes_between p q) }
    ensures moved { (p q : Place) (x : ℤ) → sleb_at p ≡ Ok (x, q) → q ≡ place_behind (length (bytes_between p q)) p }
    ensures short { (p : Place) → (sleb_at p ≡ Err ReadFault.Short) ↔ EndsInside 4 (bytes_from p) }
    ensures long { (p : Place) → (sleb_at p ≡ Err ReadFault.LongLeb) ↔ IsTooLong ends_sleb 4 (bytes_from p) }
    ensures again { (p : Place) (bytes rest : List ℕ) → IsWhole ends_sleb 4 bytes → bytes_from p ≡ bytes ++ rest → sleb_at p ≡ Ok (signed_sevens bytes, place_behind (length bytes) p) }
{}
