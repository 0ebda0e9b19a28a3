// Rules X15 and X16, on the tables of fields and methods. docs/dex-format.md states them.

ghost use Rattle.std.specs.Prelude.{◌≡◌, ◌+◌, ◌<◌, ◌≤◌, ◌==◌, ◌||◌, codes, length, true, IfOk};
ghost use Rattle.std.specs.List.{list_any};
ghost use Rattle.pi_model.specs.Texts.{same_text};
ghost use Rattle.pi_format.specs.Tables.{table_holds, count_at, field_ids, method_ids, string_ids};
ghost use Rattle.pi_format.specs.Rules.Descriptors.{is_member_name, is_method_name};
ghost use Rattle.pi_format.specs.Rules.Strings.{string_units};
ghost use Rattle.pi_format.specs.Rules.Members.{member_entry, member_rises, field_fits, field_holds, broken_fields, method_fits, method_holds, broken_methods};
ghost use Rattle.pi_dexids.specs.Tables.{HasTables};
ghost use Rattle.pi_dexids.specs.Tails.{AreTails};

use pi_dexids::entries::{FIELD_IDS, METHOD_IDS, PROTO_IDS, STRING_IDS, count, entry, member_at};
use pi_dexids::tail::{Tail, is_member_name};
use pi_dexids::tails::string;
use pi_dexids::texts::spells;
use pi_dexids::types::Types;
use std::alloc::{AllocError, Global};

/// `<init>`.
const INIT: [u16; 6] = [60, 105, 110, 105, 116, 62];

/// `<clinit>`.
const CLINIT: [u16; 8] = [60, 99, 108, 105, 110, 105, 116, 62];

/// Whether a member is behind the one before it: by class, then by name, then by type or prototype.
fn rises(file: &[u8], table: usize, i: usize) -> bool
    requires in_header { table + 8 ≤ length file.now }
    requires holds { table_holds file.now table 8 ≡ true }
    requires counted { i < count_at file.now table }
    ensures { result ≡ member_rises file.now table i }
{
    if i == 0 {
        return true;
    }
    let (before, next) = (member_at(file, table, i - 1), member_at(file, table, i));
    let by_class = before.class.cmp(&next.class);
    let by_name = before.name.cmp(&next.name);
    let by_kind = before.kind.cmp(&next.kind);
    by_class.then(by_name.then(by_kind)).is_lt()
}

/// Whether a string is the name of a member.
fn names_member(file: &[u8], tails: &[Tail], i: usize) -> bool
    requires tables { HasTables file.now }
    requires counted { i < count_at file.now string_ids }
    requires tails { AreTails file.now tails.now }
    ensures { result ≡ is_member_name (string_units file.now i) }
{
    is_member_name(string(file, tails, i))
}

/// Whether a string has a `<`.
fn has_angle(file: &[u8], tails: &[Tail], i: usize) -> bool
    requires tables { HasTables file.now }
    requires counted { i < count_at file.now string_ids }
    requires tails { AreTails file.now tails.now }
    ensures { result ≡ list_any (λ u. u == 60) (string_units file.now i) }
{
    string(file, tails, i).has_angle
}

/// Whether a string is the name of a constructor or an initialiser.
fn is_special(alloc: Global, file: &[u8], i: usize) -> Result<bool, AllocError>
    requires tables { HasTables file.now }
    requires counted { i < count_at file.now string_ids }
    ensures { IfOk result (λ r. r ≡ (same_text (codes "<init>") (string_units file.now i) || same_text (codes "<clinit>") (string_units file.now i))) }
{
    if spells(alloc, file, i, &INIT)? {
        return Ok(true);
    }
    spells(alloc, file, i, &CLINIT)
}

/// Whether a string is the name of a method: one with `<` is that of a constructor or an initialiser.
fn names_method(alloc: Global, file: &[u8], tails: &[Tail], i: usize) -> Result<bool, AllocError>
    requires tables { HasTables file.now }
    requires counted { i < count_at file.now string_ids }
    requires tails { AreTails file.now tails.now }
    ensures { IfOk result (λ r. r ≡ is_method_name (string_units file.now i)) }
{
    if !names_member(file, tails, i) {
        return Ok(false);
    }
    if !has_angle(file, tails, i) {
        return Ok(true);
    }
    is_special(alloc, file, i)
}

/// Whether a field fits.
fn fits_field(types: &Types<'_>, tails: &[Tail], i: usize) -> bool
    requires counted { i < count_at types.now field_ids }
    requires tails { AreTails types.now tails.now }
    ensures { result ≡ field_fits types.now (member_entry types.now field_ids i) }
{
    let file = types.file();
    let field = member_at(file, FIELD_IDS, i);
    let class = field.class as usize;
    if class >= types.count() || !types.is_class(class) {
        return false;
    }
    if !types.is_value(field.kind as usize) {
        return false;
    }
    let name = field.name as usize;
    name < count(file, STRING_IDS) && names_member(file, tails, name)
}

/// Whether a field fits and is behind the one before it.
fn holds_field(types: &Types<'_>, tails: &[Tail], i: usize) -> bool
    requires counted { i < count_at types.now field_ids }
    requires tails { AreTails types.now tails.now }
    ensures { result ≡ field_holds types.now i }
{
    fits_field(types, tails, i) && rises(types.file(), FIELD_IDS, i)
}

/// X15: fields fit and rise.
pub(crate) fn fields_rule(types: &Types<'_>, tails: &[Tail]) -> Option<u32>
    requires { AreTails types.now tails.now }
    ensures { result ≡ broken_fields types.now }
{
    let file = types.file();
    for i in 0..count(file, FIELD_IDS) {
        if !holds_field(types, tails, i) {
            return Some(entry(file, FIELD_IDS, 8, i) as u32);
        }
    }
    None
}

/// Whether a method fits.
fn fits_method(
    alloc: Global,
    types: &Types<'_>,
    tails: &[Tail],
    i: usize,
) -> Result<bool, AllocError>
    requires counted { i < count_at types.now method_ids }
    requires tails { AreTails types.now tails.now }
    ensures { IfOk result (λ r. r ≡ method_fits types.now (member_entry types.now method_ids i)) }
{
    let file = types.file();
    let method = member_at(file, METHOD_IDS, i);
    let class = method.class as usize;
    if class >= types.count() || !types.is_reference(class) {
        return Ok(false);
    }
    let name = method.name as usize;
    if method.kind as usize >= count(file, PROTO_IDS) || name >= count(file, STRING_IDS) {
        return Ok(false);
    }
    names_method(alloc, file, tails, name)
}

/// Whether a method fits and is behind the one before it.
fn holds_method(
    alloc: Global,
    types: &Types<'_>,
    tails: &[Tail],
    i: usize,
) -> Result<bool, AllocError>
    requires counted { i < count_at types.now method_ids }
    requires tails { AreTails types.now tails.now }
    ensures { IfOk result (λ r. r ≡ method_holds types.now i) }
{
    if !fits_method(alloc, types, tails, i)? {
        return Ok(false);
    }
    Ok(rises(types.file(), METHOD_IDS, i))
}

/// X16: methods fit and rise.
pub(crate) fn methods_rule(
    alloc: Global,
    types: &Types<'_>,
    tails: &[Tail],
) -> Result<Option<u32>, AllocError>
    requires { AreTails types.now tails.now }
    ensures { IfOk result (λ r. r ≡ broken_methods types.now) }
{
    let file = types.file();
    for i in 0..count(file, METHOD_IDS) {
        if !holds_method(alloc, types, tails, i)? {
            return Ok(Some(entry(file, METHOD_IDS, 8, i) as u32));
        }
    }
    Ok(None)
}
