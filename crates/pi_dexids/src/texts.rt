// The texts of a file: how many units one has, where they begin, and the units.

ghost use Rattle.std.specs.Prelude.{◌≡◌, ◌+◌, ◌<◌, ◌≤◌, length, true, option_map, IfSome, IfOk};
ghost use Rattle.std.specs.Ordering.{is_lt, nat_cmp};
ghost use Rattle.pi_model.specs.Texts.{same_text};
ghost use Rattle.std.specs.Cmp.Lexicographic.{slice_cmp};
ghost use Rattle.pi_format.specs.Tables.{count_at, string_ids};
ghost use Rattle.pi_format.specs.Rules.Strings.{read_text, string_text, string_units};
ghost use Rattle.pi_dexids.specs.Texts.{head_at};
ghost use Rattle.pi_dexids.specs.Tables.{HasTables};

use crate::entries::text_place;
use pi_bytes::cursor::Cursor;
use pi_bytes::fault::MutfError;
use pi_bytes::mutf8::mutf8_units;
use pi_model::listed::Units;
use pi_model::texts::same_text;
use std::alloc::{AllocError, Global};

/// How many units the text at an offset has, and where they begin.
#[tactic(auto, using(crate::proofs::Heads::head_is, crate::proofs::Heads::no_head, crate::proofs::Heads::past_the_end), unfolding(pi_bytes::specs::Leb::uleb_at))]
pub fn head(file: &[u8], at: usize) -> Option<(u32, usize)>
    ensures value { result ≡ head_at file.now at }
    ensures within { IfSome result (λ x. x.1 ≤ length file.now) }
{
    if at > file.len() {
        return None;
    }
    let mut cursor = Cursor::new(file, at);
    match cursor.uleb() {
        Ok(count) => Some((count, cursor.at())),
        Err(_) => None,
    }
}

/// The units of the text at an offset, where there is one.
#[tactic(auto, using(crate::proofs::Heads::text_is, crate::proofs::Heads::text_is_bad, crate::proofs::Heads::no_text))]
pub fn units_at(alloc: Global, file: &[u8], at: usize) -> Result<Option<Units>, AllocError>
    ensures { IfOk result (λ r. r ≡ option_map (λ t. t.units) (read_text file.now at)) }
{
    match head(file, at) {
        None => Ok(None),
        Some((count, begin)) => match mutf8_units(alloc, file.split_at(begin).1, count) {
            Ok((units, _)) => Ok(Some(units)),
            Err(MutfError::OutOfMemory) => Err(AllocError),
            Err(MutfError::Bad(_)) => Ok(None),
        },
    }
}

/// The units of a string, where it has a text.
#[tactic(auto, unfolding(pi_format::specs::Rules::Strings::string_text))]
pub fn text(alloc: Global, file: &[u8], i: usize) -> Result<Option<Units>, AllocError>
    requires tables { HasTables file.now }
    requires counted { i < count_at file.now string_ids }
    ensures { IfOk result (λ r. r ≡ option_map (λ t. t.units) (string_text file.now i)) }
{
    units_at(alloc, file, text_place(file, i))
}

/// The units of a string, none where it has no text.
#[tactic(auto, using(crate::proofs::Heads::units_of_none, crate::proofs::Heads::units_of_some))]
pub fn units(alloc: Global, file: &[u8], i: usize) -> Result<Units, AllocError>
    requires tables { HasTables file.now }
    requires counted { i < count_at file.now string_ids }
    ensures { IfOk result (λ r. r ≡ string_units file.now i) }
{
    match text(alloc, file, i)? {
        Some(units) => Ok(units),
        None => Ok(Units::new(alloc)),
    }
}

/// Whether a list of numbers is before another.
pub fn is_before(a: &[u16], b: &[u16]) -> bool
    ensures { result ≡ is_lt (slice_cmp nat_cmp a.now b.now) }
{
    a.cmp(b).is_lt()
}

/// Whether a string has so many units.
fn counts(file: &[u8], i: usize, n: usize) -> bool
    requires tables { HasTables file.now }
    requires counted { i < count_at file.now string_ids }
    requires some { 0 < n }
    ensures { length (string_units file.now i) ≡ n → result ≡ true }
{
    match head(file, text_place(file, i)) {
        Some((count, _)) => count as usize == n,
        None => false,
    }
}

/// Whether a string has these units. It is read only where it has as many of them.
#[tactic(auto, using(crate::proofs::Heads::other_length))]
pub fn spells(alloc: Global, file: &[u8], i: usize, wanted: &[u16]) -> Result<bool, AllocError>
    requires tables { HasTables file.now }
    requires counted { i < count_at file.now string_ids }
    requires some { 0 < length wanted.now }
    ensures { IfOk result (λ r. r ≡ same_text wanted.now (string_units file.now i)) }
{
    if !counts(file, i, wanted.len()) {
        return Ok(false);
    }
    let units = units(alloc, file, i)?;
    Ok(same_text(wanted, units.as_slice()))
}
