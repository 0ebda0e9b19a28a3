// What is known of the strings of a file, and with it rule X11 of docs/dex-format.md. Each text is read by itself.

ghost use Rattle.std.specs.Prelude.{◌≡◌, ◌<◌, ◌≤◌, None, Some, length, option_map, slice_get, IfOk, IfErr, IfSome, OnOk};
ghost use Rattle.pi_bytes.specs.Numbers.{most_bytes};
ghost use Rattle.pi_format.specs.Tables.{count_at, string_ids};
ghost use Rattle.pi_format.specs.Rules.Strings.{string_text, string_units, broken_strings};
ghost use Rattle.pi_dexids.specs.Tails.{AreTails, tail_of};
ghost use Rattle.pi_dexids.specs.Tables.{HasTables};

use crate::entries::{STRING_IDS, count, entry};
use crate::tail::{Tail, tail_of};
use crate::texts::text;
use pi_bytes::numbers::MOST_BYTES;
use std::alloc::{AllocError, Global};

/// What is known of the text of a string, where there is one. A text of more units than there is room for is a want of
/// memory.
#[tactic(auto, using(crate::proofs::KnownTexts::tail_of_none, crate::proofs::KnownTexts::tail_of_some))]
fn text_tail(alloc: Global, file: &[u8], i: usize, room: usize) -> Result<Option<Tail>, AllocError>
    requires tables { HasTables file.now }
    requires counted { i < count_at file.now string_ids }
    requires small { room ≤ most_bytes }
    ensures value { IfOk result (λ r. r ≡ option_map (λ t. tail_of t.units) (string_text file.now i)) }
    ensures within { IfOk result (λ r. IfSome r (λ t. t.units ≤ room)) }
{
    let Some(units) = text(alloc, file, i)? else {
        return Ok(None);
    };
    if units.len() > room {
        return Err(AllocError);
    }
    Ok(Some(tail_of(units.as_slice())))
}

/// What is known of each string, or else X11: the place of the first string without a text.
///
/// Only texts that overlap can have more units together than a file may have bytes. To read more is a want of memory,
/// so the time has a bound that does not grow with the number of strings that share bytes.
pub fn tails(alloc: Global, file: &[u8]) -> Result<Result<Vec<Tail>, u32>, AllocError>
    requires { HasTables file.now }
    ensures known { IfOk result (λ r. IfOk r (λ list. AreTails file.now list.items)) }
    ensures held { IfOk result (λ r. OnOk r (broken_strings file.now ≡ None)) }
    ensures broken { IfOk result (λ r. IfErr r (λ place. broken_strings file.now ≡ Some place)) }
{
    let mut list = Vec::new(alloc);
    let mut room = MOST_BYTES;
    for i in 0..count(file, STRING_IDS) {
        let Some(tail) = text_tail(alloc, file, i, room)? else {
            return Ok(Err(entry(file, STRING_IDS, 4, i) as u32));
        };
        room -= tail.units as usize;
        list.push(tail)?;
    }
    Ok(Ok(list))
}

/// What is known of a string.
pub fn string(file: &[u8], tails: &[Tail], i: usize) -> Tail
    requires counted { i < count_at file.now string_ids }
    requires tails { AreTails file.now tails.now }
    ensures { result ≡ tail_of (string_units file.now i) }
{
    tails[i]
}
