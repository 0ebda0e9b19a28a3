// What a file brings to a program, summed up before anything of it is made. Each sum is exact, or it is more than a file
// of the greatest length could bring if nothing in it were shared.

ghost use Rattle.std.specs.Prelude.{◌≡◌, ◌+◌, ◌<◌, ◌≤◌, ◌^◌, length, map, sum_by, true, Some, None, IfOk};
ghost use Rattle.std.specs.List.{All};
ghost use Rattle.pi_bytes.specs.Numbers.{most_bytes};
ghost use Rattle.pi_insn.specs.Lent.{data_of};
ghost use Rattle.pi_format.specs.Tables.{count_at, class_defs, method_ids};
ghost use Rattle.pi_format.specs.Rules.{broken_content_rule};
ghost use Rattle.pi_format.specs.Rules.Lowest.{tabulation};
ghost use Rattle.pi_format.specs.Rules.ClassData.{rows_of};
ghost use Rattle.pi_format.specs.Rules.CodeItems.{code_head, code_lies, code_lists, ranges_hold};
ghost use Rattle.pi_format.specs.Rules.Pieces.{index_holds, payload_units, payload_of};
ghost use Rattle.pi_dexcode.specs.Whole.{NamesIndex};
ghost use Rattle.pi_dex.specs.Judged.{SaysCode, SaysMethod};
ghost use Rattle.pi_dex.specs.Ready.{SaysClass, SaysClasses};
ghost use Rattle.pi_dex.specs.Shared.{AreCodes};
ghost use Rattle.pi_dex.specs.Weight.{param_count, data_units, insn_weight, piece_weight, range_handlers, all_handlers, half_of, code_weight, method_weight, class_weight, weight};

use crate::members::{are_bytes, members};
use crate::totals::add;
use pi_classdata::{MemberRow, RowTable, rows_are_members};
use pi_codeitem::{
    CodeHead, HandlerLists, Piece, Walk, What, handlers, head, item_bytes, lists_at, ranges_stand,
    try_range, units, walk,
};
use pi_dexraw::Raw;
use pi_insn::{Payload, RawBody};
use std::alloc::{AllocError, Global};

/// A total with the parameters of a method.
fn with_params(alloc: Global, raw: &Raw<'_>, total: u32, method: u32) -> Result<u32, AllocError>
    requires total { total ≤ most_bytes }
    requires there { method < count_at raw.now method_ids }
    ensures sum { IfOk result (λ sum. sum ≡ total + param_count raw.now method) }
    ensures most { IfOk result (λ sum. sum ≤ most_bytes) }
{
    let params = raw.params(alloc, raw.method_entry(method).kind)?;
    add(total, params.len())
}

/// A total with the units of a payload.
fn with_payload(total: u32, payload: &Payload<'_>) -> Result<u32, AllocError>
    requires { total ≤ most_bytes }
    ensures sum { IfOk result (λ sum. sum ≡ total + payload_units (data_of payload.now)) }
    ensures most { IfOk result (λ sum. sum ≤ most_bytes) }
{
    match payload {
        Payload::Packed { targets, .. } => add(add(total, 4)?, targets.len()),
        Payload::Sparse { keys, targets } => add(add(add(total, 2)?, keys.len())?, targets.len()),
        Payload::Array { items, .. } => add(add(total, 4)?, items.len()),
    }
}

/// A total with the units of the payload that far from an instruction.
fn with_data(walk: &Walk<'_>, total: u32, at: u32, dist: i32) -> Result<u32, AllocError>
    requires { total ≤ most_bytes }
    ensures sum { IfOk result (λ sum. sum ≡ total + data_units (payload_of walk.now.pieces at dist)) }
    ensures most { IfOk result (λ sum. sum ≤ most_bytes) }
{
    match walk.payload_of(at, dist) {
        None => Ok(total),
        Some(payload) => with_payload(total, &payload),
    }
}

/// A total with what an instruction brings.
fn with_insn(
    alloc: Global,
    raw: &Raw<'_>,
    walk: &Walk<'_>,
    total: u32,
    at: u32,
    body: &RawBody,
) -> Result<u32, AllocError>
    requires total { total ≤ most_bytes }
    requires index { index_holds raw.now body.now ≡ true }
    ensures sum { IfOk result (λ sum. sum ≡ total + insn_weight raw.now walk.now.pieces at body.now) }
    ensures most { IfOk result (λ sum. sum ≤ most_bytes) }
{
    let total = add(total, 1)?;
    match *body {
        RawBody::Invoke { m, .. } => with_params(alloc, raw, total, m),
        RawBody::FillArray { dist, .. } => with_data(walk, total, at, dist),
        RawBody::Switch { dist, .. } => with_data(walk, total, at, dist),
        _ => Ok(total),
    }
}

/// A total with what a piece brings.
fn with_piece(
    alloc: Global,
    raw: &Raw<'_>,
    walk: &Walk<'_>,
    total: u32,
    piece: &Piece<'_>,
) -> Result<u32, AllocError>
    requires total { total ≤ most_bytes }
    requires index { NamesIndex raw.now piece.now }
    ensures sum { IfOk result (λ sum. sum ≡ total + piece_weight raw.now walk.now.pieces piece.now) }
    ensures most { IfOk result (λ sum. sum ≤ most_bytes) }
{
    match &piece.what {
        What::Payload(_) => Ok(total),
        What::Instruction(insn) => with_insn(alloc, raw, walk, total, piece.at, &insn.body),
    }
}

/// A total with what the pieces of a code bring.
#[tactic(auto, using(crate::proofs::Weights::piece_goes, crate::proofs::Weights::sum_ends))]
fn with_pieces(alloc: Global, raw: &Raw<'_>, walk: &Walk<'_>, total: u32) -> Result<u32, AllocError>
    requires total { total ≤ most_bytes }
    requires indices { All (NamesIndex raw.now) walk.now.pieces }
    ensures sum { IfOk result (λ sum. sum ≡ total + sum_by (piece_weight raw.now walk.now.pieces) walk.now.pieces) }
    ensures most { IfOk result (λ sum. sum ≤ most_bytes) }
{
    let mut sum = total;
    for k in 0..walk.len() {
        sum = with_piece(alloc, raw, walk, sum, &walk.piece(k))?;
    }
    Ok(sum)
}

/// A total with the handlers of a range.
fn with_range(
    file: &[u8],
    at: usize,
    head: &CodeHead,
    lists: &HandlerLists,
    total: u32,
    k: usize,
) -> Result<u32, AllocError>
    requires total { total ≤ most_bytes }
    requires small { at < 2 ^ 32 }
    requires file { length file.now ≤ most_bytes }
    requires lies { code_lies file.now at ≡ true }
    requires head { head.now ≡ code_head file.now at }
    requires hold { ranges_hold file.now at head.now ≡ true }
    requires counted { k < head.now.tries }
    ensures sum { IfOk result (λ sum. sum ≡ total + range_handlers file.now at head.now lists.now k) }
    ensures most { IfOk result (λ sum. sum ≤ most_bytes) }
{
    let place = lists_at(at, head) + try_range(file, at, k).handlers as usize;
    match lists.find(place as u32) {
        None => Ok(total),
        Some(list) => add(add(total, list.typed.len())?, 1),
    }
}

/// A total with the handlers of all ranges.
#[tactic(auto, using(crate::proofs::Weights::number_goes, crate::proofs::Weights::numbers_end))]
fn with_ranges(
    file: &[u8],
    at: usize,
    head: &CodeHead,
    lists: &HandlerLists,
    total: u32,
) -> Result<u32, AllocError>
    requires total { total ≤ most_bytes }
    requires small { at < 2 ^ 32 }
    requires file { length file.now ≤ most_bytes }
    requires lies { code_lies file.now at ≡ true }
    requires head { head.now ≡ code_head file.now at }
    requires lists { code_lists file.now at ≡ Some lists.now }
    ensures sum { IfOk result (λ sum. sum ≡ total + all_handlers file.now at head.now (Some lists.now)) }
    ensures most { IfOk result (λ sum. sum ≤ most_bytes) }
{
    // where there are lists, the ranges hold
    ranges_stand();
    let mut sum = total;
    for k in 0..head.tries as usize {
        sum = with_range(file, at, head, lists, sum, k)?;
    }
    Ok(sum)
}

/// A total with the handlers of a code item.
fn with_handlers(alloc: Global, file: &[u8], at: usize, total: u32) -> Result<u32, AllocError>
    requires header { 112 ≤ length file.now }
    requires file { length file.now ≤ most_bytes }
    requires total { total ≤ most_bytes }
    requires small { at < 2 ^ 32 }
    requires lies { code_lies file.now at ≡ true }
    ensures sum { IfOk result (λ sum. sum ≡ total + all_handlers file.now at (code_head file.now at) (code_lists file.now at)) }
    ensures most { IfOk result (λ sum. sum ≤ most_bytes) }
{
    match handlers(alloc, file, at)? {
        None => Ok(total),
        Some(lists) => with_ranges(file, at, &head(file, at), &lists, total),
    }
}

/// Half of the bytes of a code item.
fn half_of(bytes: Option<u32>) -> u32
    ensures { result ≡ half_of bytes }
{
    match bytes {
        None => 0,
        Some(bytes) => bytes / 2,
    }
}

/// What a code item brings.
#[tactic(auto, unfolding(crate::specs::Weight::code_weight))]
fn code_weight(alloc: Global, raw: &Raw<'_>, at: u32) -> Result<u32, AllocError>
    requires { SaysCode raw.now at }
    ensures sum { IfOk result (λ sum. sum ≡ code_weight raw.now at) }
    ensures most { IfOk result (λ sum. sum ≤ most_bytes) }
{
    let file = raw.file();
    let at = at as usize;
    let total = add(0, half_of(item_bytes(alloc, file, at)?) as usize)?;
    let units = units(alloc, file, at)?;
    let walk = walk(alloc, units.as_slice())?;
    let total = with_pieces(alloc, raw, &walk, total)?;
    with_handlers(alloc, file, at, total)
}

/// What each code item brings.
#[tactic(auto, using(pi_format::proofs::Loops::map_go, pi_format::proofs::Loops::map_end))]
fn code_weights(alloc: Global, raw: &Raw<'_>, codes: &[u32]) -> Result<Vec<u32>, AllocError>
    requires { All (SaysCode raw.now) codes.now }
    ensures { IfOk result (λ list. list.items ≡ map (code_weight raw.now) codes.now) }
{
    let mut weights = Vec::new(alloc);
    for i in 0..codes.len() {
        weights.push(code_weight(alloc, raw, codes[i])?)?;
    }
    Ok(weights)
}

/// A total with what a code item brings, by what each of some is known to bring.
#[tactic(auto, using(crate::proofs::Weights::known_weight))]
fn with_code(
    alloc: Global,
    raw: &Raw<'_>,
    codes: &[u32],
    weights: &[u32],
    total: u32,
    at: u32,
) -> Result<u32, AllocError>
    requires total { total ≤ most_bytes }
    requires weights { weights.now ≡ map (code_weight raw.now) codes.now }
    requires says { SaysCode raw.now at }
    ensures sum { IfOk result (λ sum. sum ≡ total + code_weight raw.now at) }
    ensures most { IfOk result (λ sum. sum ≤ most_bytes) }
{
    match codes.binary_search(&at) {
        Ok(k) => add(total, weights[k] as usize),
        Err(_) => add(total, code_weight(alloc, raw, at)? as usize),
    }
}

/// A total with what a method brings.
fn with_method(
    alloc: Global,
    raw: &Raw<'_>,
    codes: &[u32],
    weights: &[u32],
    total: u32,
    row: &MemberRow,
) -> Result<u32, AllocError>
    requires total { total ≤ most_bytes }
    requires weights { weights.now ≡ map (code_weight raw.now) codes.now }
    requires says { SaysMethod raw.now row.now }
    ensures sum { IfOk result (λ sum. sum ≡ total + method_weight raw.now row.now) }
    ensures most { IfOk result (λ sum. sum ≤ most_bytes) }
{
    let total = with_params(alloc, raw, total, row.id)?;
    if row.code == 0 {
        return Ok(total);
    }
    with_code(alloc, raw, codes, weights, total, row.code)
}

/// A total with what methods bring.
#[tactic(auto, using(crate::proofs::Weights::sum_goes, crate::proofs::Weights::sum_ends))]
fn with_methods(
    alloc: Global,
    raw: &Raw<'_>,
    codes: &[u32],
    weights: &[u32],
    total: u32,
    rows: &[MemberRow],
) -> Result<u32, AllocError>
    requires total { total ≤ most_bytes }
    requires weights { weights.now ≡ map (code_weight raw.now) codes.now }
    requires says { All (SaysMethod raw.now) rows.now }
    ensures sum { IfOk result (λ sum. sum ≡ total + sum_by (method_weight raw.now) rows.now) }
    ensures most { IfOk result (λ sum. sum ≤ most_bytes) }
{
    let mut sum = total;
    for i in 0..rows.len() {
        sum = with_method(alloc, raw, codes, weights, sum, &rows[i])?;
    }
    Ok(sum)
}

/// A total with what a class brings.
fn with_class(
    alloc: Global,
    raw: &Raw<'_>,
    table: &RowTable,
    codes: &[u32],
    weights: &[u32],
    total: u32,
    i: u32,
) -> Result<u32, AllocError>
    requires total { total ≤ most_bytes }
    requires table { table.now ≡ tabulation (rows_of raw.now) 0 (count_at raw.now class_defs) }
    requires weights { weights.now ≡ map (code_weight raw.now) codes.now }
    requires there { i < count_at raw.now class_defs }
    requires says { SaysClass raw.now i }
    ensures sum { IfOk result (λ sum. sum ≡ total + class_weight raw.now i) }
    ensures most { IfOk result (λ sum. sum ≤ most_bytes) }
{
    let total = add(total, raw.faces(alloc, i)?.len())?;
    let rows = members(raw, table, i);
    let total = with_methods(alloc, raw, codes, weights, total, rows.directs.as_slice())?;
    with_methods(alloc, raw, codes, weights, total, rows.virtuals.as_slice())
}

/// What all classes bring.
#[tactic(auto, using(crate::proofs::Weights::number_goes, crate::proofs::Weights::numbers_end))]
fn all_classes(
    alloc: Global,
    raw: &Raw<'_>,
    table: &RowTable,
    codes: &[u32],
    weights: &[u32],
) -> Result<u32, AllocError>
    requires table { table.now ≡ tabulation (rows_of raw.now) 0 (count_at raw.now class_defs) }
    requires weights { weights.now ≡ map (code_weight raw.now) codes.now }
    requires says { SaysClasses raw.now }
    ensures { IfOk result (λ sum. sum ≡ weight raw.now) }
{
    let mut sum = 0;
    for i in 0..raw.class_defs() {
        sum = with_class(alloc, raw, table, codes, weights, sum, i)?;
    }
    Ok(sum)
}

/// What a file brings, of which the rules hold: no more than a file may be long, or want of memory.
pub(crate) fn weigh(
    alloc: Global,
    raw: &Raw<'_>,
    table: &RowTable,
    codes: &[u32],
) -> Result<u32, AllocError>
    requires kept { broken_content_rule raw.now ≡ None }
    requires table { table.now ≡ tabulation (rows_of raw.now) 0 (count_at raw.now class_defs) }
    requires codes { AreCodes raw.now codes.now }
    ensures { IfOk result (λ sum. sum ≡ weight raw.now) }
{
    rows_are_members();
    are_bytes(raw.file());
    let weights = code_weights(alloc, raw, codes)?;
    all_classes(alloc, raw, table, codes, weights.as_slice())
}
