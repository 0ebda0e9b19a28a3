// Numbers put behind the bytes that there are. Of a number that needs more bits than it gets, the low ones are put.
// docs/dex-format.md states how numbers stand in bytes.

ghost use Rattle.std.specs.Prelude.{◌≡◌, ◌++◌, ◌∷◌, [], OnOk};
ghost use Rattle.byteorder.specs.Endian.{little_bytes};
ghost use Rattle.pi_bytes.specs.Mutf8.{spellings};
ghost use Rattle.pi_parts.specs.Parts.{halves, words, zeros, padding};
ghost use Rattle.pi_parts.specs.Lebs.{uleb_in, uleb_bytes, sleb_in, sleb_bytes, negative_in, negative_bytes};

use byteorder::{ByteOrder, LittleEndian};
use pi_bytes::mutf8::mutf8_of;
use std::alloc::{AllocError, Global};

/// A number of 16 bits, the low byte first.
pub fn put_half(out: &mut Vec<u8>, x: usize) -> Result<(), AllocError>
    ensures { OnOk result (out.new.items ≡ out.old.items ++ little_bytes 2 x) }
{
    let mut bytes = [0u8; 8];
    LittleEndian::write_u64(&mut bytes, x as u64);
    out.extend_from_slice(bytes.split_at(2).0)
}

/// A number of 32 bits, the low byte first.
pub fn put_word(out: &mut Vec<u8>, x: usize) -> Result<(), AllocError>
    ensures { OnOk result (out.new.items ≡ out.old.items ++ little_bytes 4 x) }
{
    let mut bytes = [0u8; 8];
    LittleEndian::write_u64(&mut bytes, x as u64);
    out.extend_from_slice(bytes.split_at(4).0)
}

/// Numbers of 16 bits one behind the other.
pub fn put_halves(out: &mut Vec<u8>, xs: &[u16]) -> Result<(), AllocError>
    ensures { OnOk result (out.new.items ≡ out.old.items ++ halves xs.now) }
{
    for x in xs {
        put_half(out, *x as usize)?;
    }
    Ok(())
}

/// Numbers of 32 bits one behind the other.
pub fn put_words(out: &mut Vec<u8>, xs: &[usize]) -> Result<(), AllocError>
    ensures { OnOk result (out.new.items ≡ out.old.items ++ words xs.now) }
{
    for x in xs {
        put_word(out, *x)?;
    }
    Ok(())
}

/// So many zero bytes.
pub fn put_zeros(out: &mut Vec<u8>, n: usize) -> Result<(), AllocError>
    ensures { OnOk result (out.new.items ≡ out.old.items ++ zeros n) }
{
    for _ in 0..n {
        out.push(0)?;
    }
    Ok(())
}

/// How many bytes lie between an offset and the next multiple of four.
pub fn padding(at: usize) -> usize
    ensures { result ≡ padding at }
{
    (4 - at % 4) % 4
}

/// A uleb128 number in which at most that many bytes stand before the last.
fn put_uleb_in(out: &mut Vec<u8>, more: u8, x: usize) -> Result<(), AllocError>
    ensures { OnOk result (out.new.items ≡ out.old.items ++ uleb_in more x) }
{
    if more == 0 {
        return out.extend_from_slice(&[(x % 16) as u8]);
    }
    if x < 128 {
        return out.extend_from_slice(&[x as u8]);
    }
    out.extend_from_slice(&[(x % 128 + 128) as u8])?;
    put_uleb_in(out, more - 1, x / 128)?;
    Ok(())
}

/// A number as a uleb128 number, in as few bytes as it needs.
#[tactic(auto, unfolding(crate::specs::Lebs::uleb_bytes))]
pub fn put_uleb(out: &mut Vec<u8>, x: usize) -> Result<(), AllocError>
    ensures { OnOk result (out.new.items ≡ out.old.items ++ uleb_bytes x) }
{
    put_uleb_in(out, 4, x)
}

/// A number that is not negative as an sleb128 number in which at most that many bytes stand before the last.
fn put_sleb_in(out: &mut Vec<u8>, more: u8, x: usize) -> Result<(), AllocError>
    ensures { OnOk result (out.new.items ≡ out.old.items ++ sleb_in more x) }
{
    if more == 0 {
        return out.extend_from_slice(&[(x % 8) as u8]);
    }
    if x < 64 {
        return out.extend_from_slice(&[x as u8]);
    }
    out.extend_from_slice(&[(x % 128 + 128) as u8])?;
    put_sleb_in(out, more - 1, x / 128)?;
    Ok(())
}

/// A number that is not negative as an sleb128 number, in as few bytes as it needs.
#[tactic(auto, unfolding(crate::specs::Lebs::sleb_bytes))]
pub fn put_sleb(out: &mut Vec<u8>, x: usize) -> Result<(), AllocError>
    ensures { OnOk result (out.new.items ≡ out.old.items ++ sleb_bytes x) }
{
    put_sleb_in(out, 4, x)
}

/// The negative of a number as an sleb128 number in which at most that many bytes stand before the last.
fn put_negative_in(out: &mut Vec<u8>, more: u8, x: usize) -> Result<(), AllocError>
    ensures { OnOk result (out.new.items ≡ out.old.items ++ negative_in more x) }
{
    if more == 0 {
        return out.extend_from_slice(&[((128 - x % 16) % 128) as u8]);
    }
    if x < 65 {
        return out.extend_from_slice(&[((128 - x) % 128) as u8]);
    }
    out.extend_from_slice(&[((128 - x % 128) % 128 + 128) as u8])?;
    put_negative_in(out, more - 1, x / 128 + (x % 128 + 127) / 128)?;
    Ok(())
}

/// The negative of a number as an sleb128 number, in as few bytes as it needs.
#[tactic(auto, unfolding(crate::specs::Lebs::negative_bytes))]
pub fn put_negative(out: &mut Vec<u8>, x: usize) -> Result<(), AllocError>
    ensures { OnOk result (out.new.items ≡ out.old.items ++ negative_bytes x) }
{
    put_negative_in(out, 4, x)
}

/// Units in MUTF-8, and a 0 behind them.
pub fn put_text(alloc: Global, out: &mut Vec<u8>, units: &[u16]) -> Result<(), AllocError>
    ensures { OnOk result (out.new.items ≡ out.old.items ++ (spellings units.now ++ 0 ∷ [])) }
{
    let bytes = mutf8_of(alloc, units)?;
    out.extend_from_slice(bytes.as_slice())
}
