// Rules X1 to X9, on the header of a file. docs/dex-format.md states them. Each answers the place at which its rule is
// broken, None where it holds.

ghost use Rattle.std.specs.Prelude.{◌≡◌, ◌+◌, ◌<◌, ◌≤◌, ◌&&◌, nat_le, length, true, IsTrue};
ghost use Rattle.pi_bytes.specs.Numbers.{word_at, most_bytes};
ghost use Rattle.pi_format.specs.Tables.{table_holds};
ghost use Rattle.pi_format.specs.Rules.Header.{unless, counted_table, broken_length, broken_magic, broken_order, broken_header_size, broken_file_size, broken_checksum, broken_signature, broken_tables, broken_data};
ghost use Rattle.pi_bytes.specs.Sums.{adler};

use pi_bytes::numbers::word;
use pi_bytes::sums::adler32;
use pi_dexids::entries::{CLASS_DEFS, FIELD_IDS, METHOD_IDS, PROTO_IDS, STRING_IDS, TYPE_IDS};
use sha1::Sha1;

/// A place, unless what is asked holds.
pub(crate) fn unless(holds: bool, at: u32) -> Option<u32>
    ensures { result ≡ unless holds at }
{
    if holds { None } else { Some(at) }
}

/// X1: the file has at least 112 bytes.
pub(crate) fn length_rule(file: &[u8]) -> Option<u32>
    requires { length file.now ≤ most_bytes }
    ensures { result ≡ broken_length file.now }
{
    unless(file.len() >= 112, file.len() as u32)
}

/// X2: it begins with the magic number.
pub(crate) fn magic_rule(file: &[u8]) -> Option<u32>
    ensures { result ≡ broken_magic file.now }
{
    unless(file.starts_with(b"dex\n035\0"), 0)
}

/// X3: the tag of the byte order.
pub(crate) fn order_rule(file: &[u8]) -> Option<u32>
    requires { 112 ≤ length file.now }
    ensures { result ≡ broken_order file.now }
{
    unless(word(file, 40) == 0x12345678, 40)
}

/// X4: the size of the header.
pub(crate) fn header_size_rule(file: &[u8]) -> Option<u32>
    requires { 112 ≤ length file.now }
    ensures { result ≡ broken_header_size file.now }
{
    unless(word(file, 36) == 112, 36)
}

/// X5: the length of the file.
pub(crate) fn file_size_rule(file: &[u8]) -> Option<u32>
    requires { 112 ≤ length file.now }
    ensures { result ≡ broken_file_size file.now }
{
    unless(word(file, 32) as usize == file.len(), 32)
}

/// X6: the checksum is that of the bytes behind it.
pub(crate) fn checksum_rule(file: &[u8]) -> Option<u32>
    requires { 112 ≤ length file.now }
    ensures { result ≡ broken_checksum file.now }
{
    unless(word(file, 8) == adler32(file.split_at(12).1), 8)
}

/// X7: the signature is the digest of the bytes behind it.
pub(crate) fn signature_rule(file: &[u8]) -> Option<u32>
    requires { 112 ≤ length file.now }
    ensures { result ≡ broken_signature file.now }
{
    let signature = file.split_at(12).1.split_at(20).0;
    let digest = Sha1::digest(file.split_at(32).1);
    unless(signature == digest.as_slice(), 12)
}

/// Whether a table is empty, or begins at a multiple of four behind the header and ends in the file.
#[tactic(auto, unfolding(pi_format::specs::Tables::table_holds))]
fn holds_table(file: &[u8], place: usize, width: usize) -> bool
    requires in_header { place + 8 ≤ length file.now }
    requires narrow { width ≤ 32 }
    ensures { result ≡ table_holds file.now place width }
{
    let count = word(file, place) as usize;
    let at = word(file, place + 4) as usize;
    count == 0 || (at % 4 == 0 && at >= 112 && at + width * count <= file.len())
}

/// Whether a table holds and has at most 65,535 entries.
fn counts_table(file: &[u8], place: usize, width: usize) -> bool
    requires in_header { place + 8 ≤ length file.now }
    requires narrow { width ≤ 32 }
    ensures { result ≡ counted_table file.now place width }
{
    holds_table(file, place, width) && word(file, place) <= 65535
}

/// X8: each table is empty or in the file, with at most 65,535 types and prototypes.
pub(crate) fn tables_rule(file: &[u8]) -> Option<u32>
    requires { 112 ≤ length file.now }
    ensures { result ≡ broken_tables file.now }
{
    if !holds_table(file, STRING_IDS, 4) {
        return Some(56);
    }
    if !counts_table(file, TYPE_IDS, 4) {
        return Some(64);
    }
    if !counts_table(file, PROTO_IDS, 12) {
        return Some(72);
    }
    if !holds_table(file, FIELD_IDS, 8) {
        return Some(80);
    }
    if !holds_table(file, METHOD_IDS, 8) {
        return Some(88);
    }
    unless(holds_table(file, CLASS_DEFS, 32), 96)
}

/// X9: the data is in the file.
pub(crate) fn data_rule(file: &[u8]) -> Option<u32>
    requires { 112 ≤ length file.now }
    ensures { result ≡ broken_data file.now }
{
    let end = word(file, 108) as usize + word(file, 104) as usize;
    unless(end <= file.len(), 104)
}
