// Rule X20 on the code items of all methods. What is asked of an item alone is asked of each once.

ghost use Rattle.std.specs.Prelude.{◌≡◌, ◌≤◌, length, IfOk};
ghost use Rattle.std.specs.List.{All};
ghost use Rattle.std.specs.List.Sorted.{IsStrictlyIncreasing};
ghost use Rattle.pi_bytes.specs.Numbers.{most_bytes};
ghost use Rattle.pi_format.specs.Tables.{count_at, class_defs};
ghost use Rattle.pi_format.specs.Rules.Lowest.{lowest_of, tabulation};
ghost use Rattle.pi_format.specs.Rules.ClassData.{rows_of, methods_in};
ghost use Rattle.pi_format.specs.Rules.CodeItems.{broken_code};
ghost use Rattle.pi_dex.specs.Judged.{IsMethod};
ghost use Rattle.pi_dex.specs.Shared.{AreCodes, item_place, words_place, lowest_words};

use crate::members::members;
use crate::totals::add;
use crate::words::argument_words;
use pi_classdata::{ClassRows, MemberRow, RowTable, lower};
use pi_codeitem::{holds_in_parts, item_bytes, lies, takes_words};
use pi_dexraw::Raw;
use std::alloc::{AllocError, Global};

/// The lowest code item that does not hold, which is the first of them. Items that overlap may have more bytes together
/// than a file; these are not read.
#[tactic(auto, using(crate::proofs::Items::item_goes, crate::proofs::Items::item_stops, crate::proofs::Items::items_done))]
fn broken_item(alloc: Global, file: &[u8], codes: &[u32]) -> Result<Option<u32>, AllocError>
    requires header { 112 ≤ length file.now }
    requires small { length file.now ≤ most_bytes }
    requires rise { IsStrictlyIncreasing codes.now }
    ensures { IfOk result (λ r. r ≡ lowest_of (item_place file.now) codes.now) }
{
    let mut total = 0;
    for i in 0..codes.len() {
        match item_bytes(alloc, file, codes[i] as usize)? {
            None => return Ok(Some(codes[i])),
            Some(bytes) => total = add(total, bytes as usize)?,
        }
    }
    Ok(None)
}

/// The place of a method's code item, where it is in the file and has other argument words than the method.
fn other_words(alloc: Global, raw: &Raw<'_>, row: &MemberRow) -> Result<Option<u32>, AllocError>
    requires { IsMethod raw.now row.now }
    ensures { IfOk result (λ r. r ≡ words_place raw.now row.now) }
{
    let at = row.code as usize;
    if row.code == 0 || !lies(raw.file(), at) {
        return Ok(None);
    }
    let words = argument_words(alloc, raw, row)?;
    if takes_words(raw.file(), at, words) {
        Ok(None)
    } else {
        Ok(Some(row.code))
    }
}

/// The lowest of methods one after the other.
#[tactic(auto, using(crate::proofs::Lowest::items_go, crate::proofs::Lowest::items_end))]
fn lowest_words(alloc: Global, raw: &Raw<'_>, rows: &[MemberRow]) -> Result<Option<u32>, AllocError>
    requires { All (IsMethod raw.now) rows.now }
    ensures { IfOk result (λ r. r ≡ lowest_of (words_place raw.now) rows.now) }
{
    let mut lowest = None;
    for i in 0..rows.len() {
        lowest = lower(lowest, other_words(alloc, raw, &rows[i])?);
    }
    Ok(lowest)
}

/// The lowest of the methods of a class.
fn lowest_in_class(
    alloc: Global,
    raw: &Raw<'_>,
    rows: &ClassRows,
) -> Result<Option<u32>, AllocError>
    requires directs { All (IsMethod raw.now) rows.now.directs }
    requires virtuals { All (IsMethod raw.now) rows.now.virtuals }
    ensures { IfOk result (λ r. r ≡ lowest_of (words_place raw.now) (methods_in rows.now)) }
{
    let direct = lowest_words(alloc, raw, rows.directs.as_slice())?;
    let virtual_ = lowest_words(alloc, raw, rows.virtuals.as_slice())?;
    Ok(lower(direct, virtual_))
}

/// The lowest code item of a method with other argument words.
#[tactic(auto, using(pi_format::proofs::Loops::lowest_goes, pi_format::proofs::Loops::lowest_done))]
fn broken_words(alloc: Global, raw: &Raw<'_>, table: &RowTable) -> Result<Option<u32>, AllocError>
    requires { table.now ≡ tabulation (rows_of raw.now) 0 (count_at raw.now class_defs) }
    ensures { IfOk result (λ r. r ≡ lowest_words raw.now) }
{
    let mut lowest = None;
    for i in 0..raw.class_defs() {
        let here = lowest_in_class(alloc, raw, members(raw, table, i))?;
        lowest = lower(lowest, here);
    }
    Ok(lowest)
}

/// X20: the code item of each method that has code holds.
pub(crate) fn code_rule(
    alloc: Global,
    raw: &Raw<'_>,
    table: &RowTable,
    codes: &[u32],
) -> Result<Option<u32>, AllocError>
    requires table { table.now ≡ tabulation (rows_of raw.now) 0 (count_at raw.now class_defs) }
    requires codes { AreCodes raw.now codes.now }
    ensures { IfOk result (λ r. r ≡ broken_code raw.now) }
{
    holds_in_parts();
    let item = broken_item(alloc, raw.file(), codes)?;
    let words = broken_words(alloc, raw, table)?;
    Ok(lower(item, words))
}
