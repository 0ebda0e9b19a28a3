// The static values of a class, and rule X19. docs/dex-format.md states it.

ghost use Rattle.std.specs.Prelude.{◌≡◌, ◌<◌, ◌≤◌, ◌/◌, ◌%◌, IfOk, length, is_some};
ghost use Rattle.std.specs.List.{All};
ghost use Rattle.pi_bytes.specs.Reading.{number_at};
ghost use Rattle.pi_format.specs.Tables.{count_at, class_defs, field_ids, type_ids};
ghost use Rattle.pi_format.specs.Rules.Header.{unless};
ghost use Rattle.pi_format.specs.Rules.Lowest.{tabulation};
ghost use Rattle.pi_format.specs.Rules.Strings.{type_units};
ghost use Rattle.pi_format.specs.Rules.Rows.{readable};
ghost use Rattle.pi_format.specs.Rules.ClassData.{rows_of, class_values_at};
ghost use Rattle.pi_format.specs.Rules.Values.{value_bytes, encoded_value, is_reference, names_reference, value_fits, values_from, values_at, class_values, broken_values};
ghost use Rattle.pi_classdata.specs.Held.{Reads, held_value};

use crate::rows::{ClassRows, MemberRow};
use crate::table::{RowTable, lower};
use byteorder::{ByteOrder, LittleEndian};
use pi_bytes::cursor::Cursor;
use pi_dexraw::Raw;
use pi_model::listed::Listed;
use std::alloc::{AllocError, Global};
use std::marker::Model;

/// A static value as it stands in a file: its kind, its argument, and the number in the bytes behind, which has no sign.
#[derive(Debug, Drop)]
pub struct EncodedValue {
    pub kind: u8,
    pub arg: u8,
    pub number: u64,
}

impl Model for EncodedValue {
    ghost use Rattle.pi_format.specs.Rules.Values.{EncodedValue};

    ghost Value = { EncodedValue };

    ghost view = { λ v. record { kind = v.kind; arg = v.arg; number = v.number } };
}

/// The values of the first static fields of a class, in the order of the fields.
pub type Values = Listed<EncodedValue>;

/// The number in the next bytes, at most eight of them, the lowest first.
#[tactic(auto, using(crate::proofs::Fits::number_in_piece))]
fn number(cursor: &mut Cursor<'_>, bytes: usize) -> Option<u64>
    requires { bytes ≤ 8 }
    ensures { Reads (readable (number_at bytes cursor.old)) cursor.new result }
{
    let piece = cursor.take(bytes).ok()?;
    if bytes == 0 {
        return Some(0);
    }
    Some(LittleEndian::read_uint(piece, bytes))
}

/// How many bytes stand behind the head of a value.
fn value_bytes(kind: u8, arg: u8) -> usize
    requires { arg < 8 }
    ensures value { result ≡ value_bytes kind arg }
    ensures few { result ≤ 8 }
{
    if kind == 0x1e || kind == 0x1f {
        0
    } else {
        arg as usize + 1
    }
}

/// The next value.
#[tactic(auto, unfolding(pi_format::specs::Rules::Values::encoded_value))]
fn encoded_value(cursor: &mut Cursor<'_>) -> Option<EncodedValue>
    ensures { Reads (encoded_value cursor.old) cursor.new result }
{
    let head = cursor.u8().ok()?;
    let kind = head % 32;
    let arg = head / 32;
    let number = number(cursor, value_bytes(kind, arg))?;
    Some(EncodedValue { kind, arg, number })
}

/// Whether a type is a class or an array.
fn is_reference(raw: &Raw<'_>, t: u32) -> bool
    requires { t < count_at raw.now type_ids }
    ensures { result ≡ is_reference (type_units raw.now t) }
{
    raw.begins_with(b'L', t) || raw.begins_with(b'[', t)
}

/// Whether there is a type of that number, and it is a class or an array.
fn names_reference(raw: &Raw<'_>, number: u64) -> bool
    ensures { result ≡ names_reference raw.now number }
{
    number < raw.types() as u64 && is_reference(raw, number as u32)
}

/// Whether a value fits a field of a type.
#[tactic(auto, unfolding(pi_format::specs::Rules::Values::value_fits))]
fn fits(raw: &Raw<'_>, t: u32, v: &EncodedValue) -> bool
    requires { t < count_at raw.now type_ids }
    ensures { result ≡ value_fits raw.now (type_units raw.now t) v.now }
{
    match v.kind {
        0x00 => raw.begins_with(b'B', t) && v.arg < 1,
        0x02 => raw.begins_with(b'S', t) && v.arg < 2,
        0x03 => raw.begins_with(b'C', t) && v.arg < 2,
        0x04 => raw.begins_with(b'I', t) && v.arg < 4,
        0x06 => raw.begins_with(b'J', t) && v.arg < 8,
        0x1f => raw.begins_with(b'Z', t) && v.arg < 2,
        0x17 => raw.is_string_type(t) && v.arg < 4 && v.number < raw.strings() as u64,
        0x18 => raw.is_class_type(t) && v.arg < 4 && names_reference(raw, v.number),
        0x1e => is_reference(raw, t) && v.arg == 0,
        _ => false,
    }
}

/// The next value, if it fits a field.
#[tactic(auto, unfolding(crate::specs::Held::held_value))]
fn value(raw: &Raw<'_>, field: &MemberRow, cursor: &mut Cursor<'_>) -> Option<EncodedValue>
    requires { field.now.id < count_at raw.now field_ids }
    ensures { Reads (held_value raw.now field.now cursor.old) cursor.new result }
{
    let value = encoded_value(cursor)?;
    if !fits(raw, raw.field_entry(field.id).kind, &value) {
        return None;
    }
    Some(value)
}

/// That many values, one for each of the first fields.
fn values(
    alloc: Global,
    raw: &Raw<'_>,
    fields: &[MemberRow],
    count: u32,
    cursor: &mut Cursor<'_>,
) -> Result<Option<Values>, AllocError>
    requires { All (λ field. field.id < count_at raw.now field_ids) fields.now }
    ensures { IfOk result (λ r. r ≡ values_from raw.now fields.now count cursor.old) }
{
    let mut values = Listed::new(alloc);
    for k in 0..count as usize {
        if fields.len() <= k {
            return Ok(None);
        }
        let field = &fields[k];
        let Some(value) = value(raw, field, cursor) else {
            return Ok(None);
        };
        values.push(value)?;
    }
    Ok(Some(values))
}

/// The values at a place.
#[tactic(auto, unfolding(pi_format::specs::Rules::Values::values_at))]
fn values_at(
    alloc: Global,
    raw: &Raw<'_>,
    fields: &[MemberRow],
    cursor: &mut Cursor<'_>,
) -> Result<Option<Values>, AllocError>
    requires { All (λ field. field.id < count_at raw.now field_ids) fields.now }
    ensures { IfOk result (λ r. r ≡ values_at raw.now fields.now cursor.old) }
{
    let Some(count) = cursor.uleb().ok() else {
        return Ok(None);
    };
    values(alloc, raw, fields, count, cursor)
}

/// The static values of a class definition with those members, None where they do not hold. No more are read than there
/// are static fields.
#[tactic(auto, unfolding(pi_format::specs::Rules::Values::class_values))]
pub fn class_values(
    alloc: Global,
    raw: &Raw<'_>,
    rows: &ClassRows,
    i: u32,
) -> Result<Option<Values>, AllocError>
    requires counted { i < count_at raw.now class_defs }
    requires rows { rows.now ≡ rows_of raw.now i }
    ensures { IfOk result (λ r. r ≡ class_values raw.now i) }
{
    let at = raw.class_entry(i).values_at as usize;
    if at == 0 {
        return Ok(Some(Listed::new(alloc)));
    }
    let file = raw.file();
    if file.len() < at {
        return Ok(None);
    }
    values_at(
        alloc,
        raw,
        rows.statics.as_slice(),
        &mut Cursor::new(file, at),
    )
}

/// The place of the static values of a class, if they do not hold.
fn judged(alloc: Global, raw: &Raw<'_>, rows: &ClassRows, i: u32) -> Result<Option<u32>, AllocError>
    requires counted { i < count_at raw.now class_defs }
    requires rows { rows.now ≡ rows_of raw.now i }
    ensures { IfOk result (λ r. r ≡ unless (is_some (class_values raw.now i)) (class_values_at raw.now i)) }
{
    match class_values(alloc, raw, rows, i)? {
        Some(_) => Ok(None),
        None => Ok(Some(raw.class_entry(i).values_at)),
    }
}

/// X19: the static values of each class hold, or else the lowest place at which they do not. The table has the members of
/// all classes of the file.
#[tactic(auto, using(pi_format::proofs::Loops::lowest_goes, pi_format::proofs::Loops::lowest_done))]
pub fn values_rule(
    alloc: Global,
    raw: &Raw<'_>,
    table: &RowTable,
) -> Result<Option<u32>, AllocError>
    requires { table.now ≡ tabulation (rows_of raw.now) 0 (count_at raw.now class_defs) }
    ensures { IfOk result (λ r. r ≡ broken_values raw.now) }
{
    let mut broken = None;
    for i in 0..raw.class_defs() {
        broken = lower(broken, judged(alloc, raw, table.get(i), i)?);
    }
    Ok(broken)
}
