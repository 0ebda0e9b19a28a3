// Rule X10, on the map of a file. docs/dex-format.md states it.

ghost use Rattle.std.specs.Prelude.{◌≡◌, ◌+◌, ◌*◌, ◌<◌, ◌≤◌, ◌&&◌, ◌==◌, length, IfOk, Bool};
ghost use Rattle.pi_format.specs.Rules.Entries.{some_from};
ghost use Rattle.pi_format.specs.Rules.Map.{map_at, item_count, item_type, item_size, item_offset, map_lies, item_rises, item_is_new, has_item, lacks_item, table_mapped, width_of_item, item_ends, items_hold, names_ids, names_members, names_tables, map_holds, broken_map};
ghost use Rattle.pi_dexids.specs.Facts.{AreFacts};

use crate::header::unless;
use pi_bytes::numbers::{half, is_in_file, word};
use pi_dexids::entries::{CLASS_DEFS, FIELD_IDS, METHOD_IDS, PROTO_IDS, STRING_IDS, TYPE_IDS};
use pi_dexids::facts::{fact, flags};
use std::alloc::{AllocError, Global};

/// Where the map begins.
fn map_at(file: &[u8]) -> usize
    requires { 112 ≤ length file.now }
    ensures { result ≡ map_at file.now }
{
    word(file, 52) as usize
}

/// Whether the map is at a multiple of four in the file.
fn lies(file: &[u8]) -> bool
    requires { 112 ≤ length file.now }
    ensures { result ≡ map_lies file.now }
{
    let at = map_at(file);
    at % 4 == 0 && is_in_file(file, at, 4) && is_in_file(file, at + 4, 12 * word(file, at) as usize)
}

/// How many items the map has.
fn count(file: &[u8]) -> usize
    requires header { 112 ≤ length file.now }
    requires lies { map_at file.now + 4 + 12 * item_count file.now ≤ length file.now }
    ensures { result ≡ item_count file.now }
{
    word(file, map_at(file)) as usize
}

/// What an item is.
fn kind(file: &[u8], i: usize) -> u16
    requires header { 112 ≤ length file.now }
    requires lies { map_at file.now + 4 + 12 * item_count file.now ≤ length file.now }
    requires counted { i < item_count file.now }
    ensures { result ≡ item_type file.now i }
{
    half(file, map_at(file) + 4 + 12 * i)
}

/// How many things an item has.
fn size(file: &[u8], i: usize) -> u32
    requires header { 112 ≤ length file.now }
    requires lies { map_at file.now + 4 + 12 * item_count file.now ≤ length file.now }
    requires counted { i < item_count file.now }
    ensures { result ≡ item_size file.now i }
{
    word(file, map_at(file) + 8 + 12 * i)
}

/// Where an item begins.
fn offset(file: &[u8], i: usize) -> u32
    requires header { 112 ≤ length file.now }
    requires lies { map_at file.now + 4 + 12 * item_count file.now ≤ length file.now }
    requires counted { i < item_count file.now }
    ensures { result ≡ item_offset file.now i }
{
    word(file, map_at(file) + 12 + 12 * i)
}

/// Whether an item begins behind the one before it.
fn rises(file: &[u8], i: usize) -> bool
    requires header { 112 ≤ length file.now }
    requires lies { map_at file.now + 4 + 12 * item_count file.now ≤ length file.now }
    requires counted { i < item_count file.now }
    ensures { result ≡ item_rises file.now i }
{
    i == 0 || offset(file, i - 1) < offset(file, i)
}

/// The bytes of an entry of the table that has that kind.
fn width(kind: u16) -> usize
    ensures value { result ≡ width_of_item kind }
    ensures narrow { result ≤ 32 }
{
    if kind == 1 || kind == 2 {
        4
    } else if kind == 3 {
        12
    } else if kind == 4 || kind == 5 {
        8
    } else if kind == 6 {
        32
    } else {
        0
    }
}

/// Whether a table ends at or before the next item.
fn ends(file: &[u8], i: usize) -> bool
    requires header { 112 ≤ length file.now }
    requires lies { map_at file.now + 4 + 12 * item_count file.now ≤ length file.now }
    requires counted { i < item_count file.now }
    ensures { result ≡ item_ends file.now i }
{
    if i + 1 >= count(file) {
        return true;
    }
    let width = width(kind(file, i));
    let end = offset(file, i) as usize + width * size(file, i) as usize;
    end <= offset(file, i + 1) as usize || width == 0
}

/// Whether no item before one is of its kind, by a flag for each kind of those.
fn is_new(file: &[u8], i: usize, seen: &[bool]) -> bool
    requires header { 112 ≤ length file.now }
    requires lies { map_at file.now + 4 + 12 * item_count file.now ≤ length file.now }
    requires counted { i < item_count file.now }
    requires flags { AreFacts (λ t. some_from (λ k. item_type file.now k == t) 0 i) 65536 seen.now }
    ensures { result ≡ item_is_new file.now i }
{
    !fact(seen, kind(file, i) as usize)
}

/// Whether an item holds, with a flag for each kind of the items before it.
fn holds(file: &[u8], i: usize, seen: &[bool]) -> bool
    requires header { 112 ≤ length file.now }
    requires lies { map_at file.now + 4 + 12 * item_count file.now ≤ length file.now }
    requires counted { i < item_count file.now }
    requires flags { AreFacts (λ t. some_from (λ k. item_type file.now k == t) 0 i) 65536 seen.now }
    ensures { result ≡ (item_rises file.now i && (item_is_new file.now i && item_ends file.now i)) }
{
    rises(file, i) && is_new(file, i, seen) && ends(file, i)
}

/// Whether items rise, are of different kinds, and no table reaches into the next item.
fn items(alloc: Global, file: &[u8]) -> Result<bool, AllocError>
    requires header { 112 ≤ length file.now }
    requires lies { map_at file.now + 4 + 12 * item_count file.now ≤ length file.now }
    ensures { IfOk result (λ r. r ≡ items_hold file.now) }
{
    let mut seen = flags(alloc, 65536)?;
    for i in 0..count(file) {
        if !holds(file, i, seen.as_slice()) {
            return Ok(false);
        }
        seen[kind(file, i) as usize] = true;
    }
    Ok(true)
}

/// Whether an item is of that kind, with that number of things at that offset.
fn is_it(file: &[u8], i: usize, wanted: u16, number: u32, at: u32) -> bool
    requires header { 112 ≤ length file.now }
    requires lies { map_at file.now + 4 + 12 * item_count file.now ≤ length file.now }
    requires counted { i < item_count file.now }
    ensures { result ≡ ((item_type file.now i == wanted) && ((item_size file.now i == number) && (item_offset file.now i == at))) }
{
    kind(file, i) == wanted && size(file, i) == number && offset(file, i) == at
}

/// Whether one of the items is of that kind, with that number of things at that offset.
#[tactic(auto, unfolding(pi_format::specs::Rules::Map::has_item))]
fn has(file: &[u8], wanted: u16, number: u32, at: u32) -> bool
    requires header { 112 ≤ length file.now }
    requires lies { map_at file.now + 4 + 12 * item_count file.now ≤ length file.now }
    ensures { result ≡ has_item file.now wanted number at }
{
    for i in 0..count(file) {
        if is_it(file, i, wanted, number, at) {
            return true;
        }
    }
    false
}

/// Whether no item is of that kind.
#[tactic(auto, unfolding(pi_format::specs::Rules::Map::lacks_item))]
fn lacks(file: &[u8], wanted: u16) -> bool
    requires header { 112 ≤ length file.now }
    requires lies { map_at file.now + 4 + 12 * item_count file.now ≤ length file.now }
    ensures { result ≡ lacks_item file.now wanted }
{
    for i in 0..count(file) {
        if kind(file, i) == wanted {
            return false;
        }
    }
    true
}

/// Whether a table is in the map as the header says it, exactly where it is not empty.
#[tactic(auto, unfolding(pi_format::specs::Rules::Map::table_mapped))]
fn maps(file: &[u8], kind: u16, table: usize) -> bool
    requires header { 112 ≤ length file.now }
    requires lies { map_at file.now + 4 + 12 * item_count file.now ≤ length file.now }
    requires in_header { table + 8 ≤ 112 }
    ensures { result ≡ table_mapped file.now kind table }
{
    let number = word(file, table);
    if number == 0 {
        lacks(file, kind)
    } else {
        has(file, kind, number, word(file, table + 4))
    }
}

/// Whether the map names the header and the tables of strings, types and prototypes.
#[tactic(auto, unfolding(pi_format::specs::Rules::Map::names_ids))]
fn names_ids(file: &[u8]) -> bool
    requires header { 112 ≤ length file.now }
    requires lies { map_at file.now + 4 + 12 * item_count file.now ≤ length file.now }
    ensures { result ≡ names_ids file.now }
{
    has(file, 0, 1, 0)
        && maps(file, 1, STRING_IDS)
        && maps(file, 2, TYPE_IDS)
        && maps(file, 3, PROTO_IDS)
}

/// Whether it names the tables of members and classes.
#[tactic(auto, unfolding(pi_format::specs::Rules::Map::names_members))]
fn names_members(file: &[u8]) -> bool
    requires header { 112 ≤ length file.now }
    requires lies { map_at file.now + 4 + 12 * item_count file.now ≤ length file.now }
    ensures { result ≡ names_members file.now }
{
    maps(file, 4, FIELD_IDS) && maps(file, 5, METHOD_IDS) && maps(file, 6, CLASS_DEFS)
}

/// Whether it names these as the header says them, and neither call sites nor method handles.
fn names_tables(file: &[u8]) -> bool
    requires header { 112 ≤ length file.now }
    requires lies { map_at file.now + 4 + 12 * item_count file.now ≤ length file.now }
    ensures { result ≡ names_tables file.now }
{
    names_ids(file) && names_members(file) && lacks(file, 7) && lacks(file, 8)
}

/// Whether the map is in the file and its items hold.
#[tactic(auto, using(crate::proofs::Items::map_ends), unfolding(pi_format::specs::Rules::Map::map_holds))]
fn holds_map(alloc: Global, file: &[u8]) -> Result<bool, AllocError>
    requires { 112 ≤ length file.now }
    ensures { IfOk result (λ r. r ≡ map_holds file.now) }
{
    if !lies(file) {
        return Ok(false);
    }
    let items = items(alloc, file)?;
    Ok(items && names_tables(file))
}

/// X10: the map.
pub(crate) fn map_rule(alloc: Global, file: &[u8]) -> Result<Option<u32>, AllocError>
    requires { 112 ≤ length file.now }
    ensures { IfOk result (λ r. r ≡ broken_map file.now) }
{
    let holds = holds_map(alloc, file)?;
    Ok(unless(holds, 52))
}
