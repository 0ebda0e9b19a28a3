// Rule X18, on the class data of a class. docs/dex-format.md states it.

ghost use Rattle.std.specs.Prelude.{◌≡◌, ◌<◌, ◌≤◌, ◌^◌, true, None, Some, IfOk, IfSome, length};
ghost use Rattle.pi_format.specs.Tables.{count_at, class_defs};
ghost use Rattle.pi_format.specs.Rules.Rows.{has_code, code_offset, counted_from, is_behind, member_row};
ghost use Rattle.pi_format.specs.Rules.ClassData.{row_counts, rows_of_list, rows_at, class_rows};
ghost use Rattle.pi_classdata.specs.Held.{Reads, ReadsRows, AreRows, held_row, rise};

use crate::apart::are_apart;
use crate::fault::RowsFault;
use crate::judge::{Owner, ReadRow, holds, owner_of};
use crate::rows::{ClassRows, MemberRow};
use pi_bytes::cursor::Cursor;
use pi_dexraw::Raw;
use pi_format::lists::MemberList;
use pi_format::lists::MemberList::{DirectMethods, InstanceFields, StaticFields, VirtualMethods};
use pi_model::listed::Listed;
use std::alloc::{AllocError, Global};
use std::marker::Model;

/// How many rows the four lists have.
#[derive(Drop)]
struct RowCounts {
    statics: u32,
    instances: u32,
    directs: u32,
    virtuals: u32,
}

impl Model for RowCounts {
    ghost use Rattle.pi_format.specs.Rules.ClassData.{RowCounts};

    ghost Value = { RowCounts };

    ghost view = { λ n. record { statics = n.statics; instances = n.instances; directs = n.directs; virtuals = n.virtuals } };
}

/// Whether the rows of a list have an offset of code.
fn has_code(list: MemberList) -> bool
    ensures { result ≡ has_code list }
{
    match list {
        StaticFields | InstanceFields => false,
        DirectMethods | VirtualMethods => true,
    }
}

/// The offset of code, where rows have one, and else 0.
fn code_offset(cursor: &mut Cursor<'_>, has_code: bool) -> Option<u32>
    ensures { Reads (code_offset has_code cursor.old) cursor.new result }
{
    if has_code {
        cursor.uleb().ok()
    } else {
        Some(0)
    }
}

/// The number from which that of the next row is counted.
fn counted_from(before: Option<u32>) -> u32
    ensures { result ≡ counted_from before }
{
    before.unwrap_or(0)
}

/// Whether a number is behind that of the row before it.
fn is_behind(before: Option<u32>, id: u64) -> bool
    ensures { result ≡ is_behind before id }
{
    match before {
        None => true,
        Some(before) => (before as u64) < id,
    }
}

/// The next row as it stands there.
#[tactic(auto, unfolding(pi_format::specs::Rules::Rows::member_row))]
fn read_row(cursor: &mut Cursor<'_>, list: MemberList, before: Option<u32>) -> Option<ReadRow>
    ensures { Reads (member_row list before cursor.old) cursor.new result }
{
    let difference = cursor.uleb().ok()?;
    let flags = cursor.uleb().ok()?;
    let code = code_offset(cursor, has_code(list))?;
    Some(ReadRow {
        id: counted_from(before) as u64 + difference as u64,
        flags,
        code,
    })
}

/// The next row, if it is behind the one before it and holds.
#[tactic(auto, unfolding(crate::specs::Held::held_row))]
fn row(
    raw: &Raw<'_>,
    owner: &Owner,
    list: MemberList,
    cursor: &mut Cursor<'_>,
    before: Option<u32>,
) -> Option<MemberRow>
    ensures { Reads (held_row raw.now owner.now list before cursor.old) cursor.new result }
{
    let row = read_row(cursor, list, before)?;
    if !is_behind(before, row.id) || !holds(raw, owner, list, &row) {
        return None;
    }
    Some(MemberRow {
        id: row.id as u32,
        flags: row.flags,
        code: row.code,
    })
}

/// That many rows of a list of the class, one behind the other.
fn rows(
    alloc: Global,
    raw: &Raw<'_>,
    owner: &Owner,
    list: MemberList,
    count: u32,
    cursor: &mut Cursor<'_>,
) -> Result<Listed<MemberRow>, RowsFault>
    ensures value { ReadsRows (rows_of_list raw.now owner.now list count cursor.old) cursor.new result }
    ensures rising { IfOk result (λ rows. rise None rows ≡ true) }
{
    let mut rows = Listed::new(alloc);
    let mut before = None;
    for _ in 0..count {
        let Some(row) = row(raw, owner, list, cursor, before) else {
            return Err(RowsFault::Broken);
        };
        before = Some(row.id);
        rows.push(row)?;
    }
    Ok(rows)
}

/// How many rows the four lists have.
#[tactic(auto, unfolding(pi_format::specs::Rules::ClassData::row_counts))]
fn counts(cursor: &mut Cursor<'_>) -> Option<RowCounts>
    ensures { Reads (row_counts cursor.old) cursor.new result }
{
    let statics = cursor.uleb().ok()?;
    let instances = cursor.uleb().ok()?;
    let directs = cursor.uleb().ok()?;
    let virtuals = cursor.uleb().ok()?;
    Some(RowCounts {
        statics,
        instances,
        directs,
        virtuals,
    })
}

/// The rows of the four lists, of which no two have a member in common.
#[tactic(auto, unfolding(pi_format::specs::Rules::ClassData::rows_at))]
fn all_rows(
    alloc: Global,
    raw: &Raw<'_>,
    owner: &Owner,
    cursor: &mut Cursor<'_>,
) -> Result<ClassRows, RowsFault>
    ensures { AreRows (rows_at raw.now owner.now cursor.old) result }
{
    let n = counts(cursor).ok_or(RowsFault::Broken)?;
    let statics = rows(alloc, raw, owner, StaticFields, n.statics, cursor)?;
    let instances = rows(alloc, raw, owner, InstanceFields, n.instances, cursor)?;
    let directs = rows(alloc, raw, owner, DirectMethods, n.directs, cursor)?;
    let virtuals = rows(alloc, raw, owner, VirtualMethods, n.virtuals, cursor)?;
    if !are_apart(statics.as_slice(), instances.as_slice())
        || !are_apart(directs.as_slice(), virtuals.as_slice())
    {
        return Err(RowsFault::Broken);
    }
    Ok(ClassRows {
        statics,
        instances,
        directs,
        virtuals,
    })
}

/// The rows of class data at a place, None where they do not hold.
fn rows_at(
    alloc: Global,
    raw: &Raw<'_>,
    owner: &Owner,
    cursor: &mut Cursor<'_>,
) -> Result<Option<ClassRows>, AllocError>
    ensures { IfOk result (λ r. r ≡ rows_at raw.now owner.now cursor.old) }
{
    match all_rows(alloc, raw, owner, cursor) {
        Ok(rows) => Ok(Some(rows)),
        Err(RowsFault::Broken) => Ok(None),
        Err(RowsFault::OutOfMemory) => Err(AllocError),
    }
}

/// The members of a class definition, None where its class data does not hold. Reading stops at the first row that does
/// not hold.
#[tactic(auto, unfolding(pi_format::specs::Rules::ClassData::class_rows))]
pub fn class_rows(alloc: Global, raw: &Raw<'_>, i: u32) -> Result<Option<ClassRows>, AllocError>
    requires { i < count_at raw.now class_defs }
    ensures { IfOk result (λ r. r ≡ class_rows raw.now i) }
{
    let at = raw.class_entry(i).data_at as usize;
    if at == 0 {
        return Ok(Some(ClassRows::none(alloc)));
    }
    let file = raw.file();
    if file.len() < at {
        return Ok(None);
    }
    rows_at(alloc, raw, &owner_of(raw, i), &mut Cursor::new(file, at))
}
