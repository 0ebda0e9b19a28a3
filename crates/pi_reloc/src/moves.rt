// The patch: marked words are moved, or nothing is changed.

ghost use Rattle.std.specs.Prelude.{◌≡◌, ℕ, ◌+◌, ◌*◌, ◌/◌, ◌<◌, ◌≤◌, ◌+ℤ◌, pos, length, slice_get, IfErr, IfNone, IfSome, OnErr, OnOk};
ghost use Rattle.pi_reloc.specs.Patch.{IsMarked, Leaves, Stays, word_at};

use crate::bitmap::Bitmap;
use byteorder::{ByteOrder, LittleEndian};
use thiserror::Error;

/// A marked word, counted in words from 0, that would leave 32 bits.
#[derive(Clone, Copy, Debug, PartialEq, Eq, Error)]
#[error("word {word} would leave 32 bits")]
pub struct PatchFault {
    pub word: u32,
}

/// Adds `delta` to each marked word of `bytes`. Word k is the four bytes from byte 4k, the low one first. Where a marked
/// word would leave 32 bits, the first such word is the answer, and no byte is changed. Takes no memory.
pub fn patch(bytes: &mut [u8], map: &Bitmap, delta: i64) -> Result<(), PatchFault>
    requires { 4 * length map.now ≤ length bytes.old }
    ensures len { length bytes.new ≡ length bytes.old }
    ensures moved { OnOk result ((k : ℕ) → IsMarked map.now k → pos (word_at bytes.new k) ≡ pos (word_at bytes.old k) +ℤ delta) }
    ensures others { OnOk result ((b : ℕ) → ¬ IsMarked map.now (b / 4) → slice_get bytes.new b ≡ slice_get bytes.old b) }
    ensures stay { OnOk result ((k : ℕ) → IsMarked map.now k → Stays (word_at bytes.old k) delta) }
    ensures marked { IfErr result (λ e. IsMarked map.now e.word) }
    ensures leaves { IfErr result (λ e. Leaves (word_at bytes.old e.word) delta) }
    ensures first { IfErr result (λ e. (k : ℕ) → k < e.word → IsMarked map.now k → Stays (word_at bytes.old k) delta) }
    ensures unchanged { OnErr result (bytes.new ≡ bytes.old) }
{
    if let Some(word) = first_leaving(bytes, map, delta) {
        return Err(PatchFault { word });
    }
    move_marked(bytes, map, delta);
    Ok(())
}

fn first_leaving(bytes: &[u8], map: &Bitmap, delta: i64) -> Option<u32>
    requires { 4 * length map.now ≤ length bytes.now }
    ensures stay { IfNone result ((k : ℕ) → IsMarked map.now k → Stays (word_at bytes.now k) delta) }
    ensures marked { IfSome result (λ w. IsMarked map.now w) }
    ensures leaves { IfSome result (λ w. Leaves (word_at bytes.now w) delta) }
    ensures first { IfSome result (λ w. (k : ℕ) → k < w → IsMarked map.now k → Stays (word_at bytes.now k) delta) }
{
    for k in 0..map.words() {
        if map.has(k) && moved(word_of(bytes, k as usize), delta).is_none() {
            return Some(k);
        }
    }
    None
}

fn move_marked(bytes: &mut [u8], map: &Bitmap, delta: i64)
    requires within { 4 * length map.now ≤ length bytes.old }
    requires stay { (k : ℕ) → IsMarked map.now k → Stays (word_at bytes.old k) delta }
    ensures len { length bytes.new ≡ length bytes.old }
    ensures moved { (k : ℕ) → IsMarked map.now k → pos (word_at bytes.new k) ≡ pos (word_at bytes.old k) +ℤ delta }
    ensures others { (b : ℕ) → ¬ IsMarked map.now (b / 4) → slice_get bytes.new b ≡ slice_get bytes.old b }
{
    for k in 0..map.words() {
        if map.has(k) {
            match moved(word_of(bytes, k as usize), delta) {
                Some(word) => set_word(bytes, k as usize, word),
                None => unreachable!(),
            }
        }
    }
}

/// A word plus `delta`, None where that leaves 32 bits.
fn moved(word: u32, delta: i64) -> Option<u32>
    ensures sum { IfSome result (λ w. pos w ≡ pos word +ℤ delta) }
    ensures stays { IfSome result (λ w. Stays word delta) }
    ensures leaves { IfNone result (Leaves word delta) }
{
    let sum = (word as i64).checked_add(delta)?;
    u32::try_from(sum).ok()
}

fn word_of(bytes: &[u8], k: usize) -> u32
    requires { 4 * k + 4 ≤ length bytes.now }
    ensures { result ≡ word_at bytes.now k }
{
    LittleEndian::read_u32(bytes.split_at(4 * k).1)
}

fn set_word(bytes: &mut [u8], k: usize, word: u32)
    requires { 4 * k + 4 ≤ length bytes.old }
    ensures len { length bytes.new ≡ length bytes.old }
    ensures written { word_at bytes.new k ≡ word }
    ensures others { (b : ℕ) → ¬ (b / 4 ≡ k) → slice_get bytes.new b ≡ slice_get bytes.old b }
{
    LittleEndian::write_u32(&mut bytes[4 * k..], word);
}
