// The tables of a file and their entries. docs/dex-format.md states them under "Tables".

ghost use Rattle.std.specs.Prelude.{◌≡◌, ◌+◌, ◌<◌, ◌≤◌, length, true};
ghost use Rattle.pi_format.specs.Tables.{table_holds, count_at, string_ids, type_ids, proto_ids, class_defs};
ghost use Rattle.pi_format.specs.Rules.Entries.{entry_at};
ghost use Rattle.pi_format.specs.Rules.Strings.{type_string};
ghost use Rattle.pi_format.specs.Rules.Members.{member_entry, proto_entry};
ghost use Rattle.pi_format.specs.Rules.Classes.{class_entry};
ghost use Rattle.pi_format.specs.Rules.ClassData.{class_flags, class_data_at, class_values_at};
ghost use Rattle.pi_bytes.specs.Numbers.{word_at, word_end};
ghost use Rattle.pi_dexids.specs.Tables.{HasTables};

use pi_bytes::numbers::{half, word};
use std::marker::Model;

// The places of the header's fields: a table's size stands there, its offset four bytes later.
pub const STRING_IDS: usize = 56;

pub const TYPE_IDS: usize = 64;

pub const PROTO_IDS: usize = 72;

pub const FIELD_IDS: usize = 80;

pub const METHOD_IDS: usize = 88;

pub const CLASS_DEFS: usize = 96;

/// A field or a method as its table has it: the number of its class, of its type or prototype, and of the string of its
/// name.
#[derive(Debug, Drop)]
pub struct Member {
    pub class: u32,
    pub kind: u32,
    pub name: u32,
}

impl Model for Member {
    ghost use Rattle.pi_format.specs.Rules.Members.{MemberEntry};

    ghost Value = { MemberEntry };

    ghost view = { λ m. record { class = m.class; kind = m.kind; name = m.name } };
}

/// A prototype: the numbers of the string of its short form and of the type of its result, and the offset of its
/// parameters, 0 where it has none.
#[derive(Debug, Drop)]
pub struct Proto {
    pub short: u32,
    pub ret: u32,
    pub params: u32,
}

impl Model for Proto {
    ghost use Rattle.pi_format.specs.Rules.Members.{ProtoEntry};

    ghost Value = { ProtoEntry };

    ghost view = { λ p. record { short = p.short; ret = p.ret; params = p.params } };
}

/// A class definition: the numbers of its type and of its superclass, which is 0xffffffff where it has none, its flags, and
/// the offsets of its interfaces, class data and static values, each 0 where it has none.
#[derive(Debug, Drop)]
pub struct ClassDef {
    pub class: u32,
    pub flags: u32,
    pub parent: u32,
    pub faces: u32,
    pub data_at: u32,
    pub values_at: u32,
}

/// How many entries a table has.
pub fn count(file: &[u8], table: usize) -> usize
    requires { table + 4 ≤ length file.now }
    ensures value { result ≡ count_at file.now table }
    ensures small { result < word_end }
{
    word(file, table) as usize
}

/// Where an entry of a table begins.
#[tactic(auto, using(crate::proofs::Places::entry_within))]
pub fn entry(file: &[u8], table: usize, width: usize, i: usize) -> usize
    requires in_header { table + 8 ≤ length file.now }
    requires narrow { width ≤ 32 }
    requires holds { table_holds file.now table width ≡ true }
    requires counted { i < count_at file.now table }
    ensures value { result ≡ entry_at file.now table width i }
    ensures ends { result + width ≤ length file.now }
{
    word(file, table + 4) as usize + width * i
}

/// Where the text of a string is.
pub fn text_place(file: &[u8], i: usize) -> usize
    requires tables { HasTables file.now }
    requires counted { i < count_at file.now string_ids }
    ensures { result ≡ word_at file.now (entry_at file.now string_ids 4 i) }
{
    word(file, entry(file, STRING_IDS, 4, i)) as usize
}

/// The string of a type.
pub fn string_of_type(file: &[u8], t: usize) -> usize
    requires tables { HasTables file.now }
    requires counted { t < count_at file.now type_ids }
    ensures value { result ≡ type_string file.now t }
    ensures small { result < word_end }
{
    word(file, entry(file, TYPE_IDS, 4, t)) as usize
}

/// A member by its number in one of the tables of members.
pub fn member_at(file: &[u8], table: usize, i: usize) -> Member
    requires in_header { table + 8 ≤ length file.now }
    requires holds { table_holds file.now table 8 ≡ true }
    requires counted { i < count_at file.now table }
    ensures { result ≡ member_entry file.now table i }
{
    let at = entry(file, table, 8, i);
    Member {
        class: half(file, at) as u32,
        kind: half(file, at + 2) as u32,
        name: word(file, at + 4),
    }
}

/// A prototype by its number.
pub fn proto_at(file: &[u8], i: usize) -> Proto
    requires tables { HasTables file.now }
    requires counted { i < count_at file.now proto_ids }
    ensures { result ≡ proto_entry file.now i }
{
    let at = entry(file, PROTO_IDS, 12, i);
    Proto {
        short: word(file, at),
        ret: word(file, at + 4),
        params: word(file, at + 8),
    }
}

/// A class definition by its number.
pub fn class_def_at(file: &[u8], i: usize) -> ClassDef
    requires tables { HasTables file.now }
    requires counted { i < count_at file.now class_defs }
    ensures class { result.class ≡ (class_entry file.now i).class }
    ensures flags { result.flags ≡ class_flags file.now i }
    ensures parent { result.parent ≡ (class_entry file.now i).parent }
    ensures faces { result.faces ≡ (class_entry file.now i).faces }
    ensures data { result.data_at ≡ class_data_at file.now i }
    ensures values { result.values_at ≡ class_values_at file.now i }
{
    let at = entry(file, CLASS_DEFS, 32, i);
    ClassDef {
        class: word(file, at),
        flags: word(file, at + 4),
        parent: word(file, at + 8),
        faces: word(file, at + 12),
        data_at: word(file, at + 24),
        values_at: word(file, at + 28),
    }
}
