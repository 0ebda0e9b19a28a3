// A file of which the rules X1 to X17 hold: its strings by number, and the bytes of its entries. docs/dex-format.md states
// the rules.

ghost use Rattle.std.specs.Prelude.{◌≡◌, ◌+◌, ◌<◌, ◌≤◌, true, None, length, take, drop, IfOk};
ghost use Rattle.pi_bytes.specs.Numbers.{most_bytes};
ghost use Rattle.pi_format.specs.Tables.{table_holds, count_at, string_ids, type_ids, proto_ids, field_ids, method_ids, class_defs};
ghost use Rattle.pi_format.specs.Rules.{broken_tables_rule};
ghost use Rattle.pi_format.specs.Rules.Entries.{entry_at};
ghost use Rattle.pi_format.specs.Rules.Strings.{string_bytes, string_units};
ghost use Rattle.pi_dexids.specs.Facts.{letter_of};
ghost use Rattle.pi_dexids.specs.Tables.{HasTables};
ghost use Rattle.pi_dexraw.specs.Asked.{Tells};
ghost use Rattle.pi_dexraw.specs.Whole.{known_of};

use crate::asking::ask_all;
use crate::fault::DexFault;
use crate::known::{Known, text_bytes};
use pi_bytes::numbers::word;
use pi_dexids::entries::{
    CLASS_DEFS, FIELD_IDS, METHOD_IDS, PROTO_IDS, STRING_IDS, TYPE_IDS, entry,
};
use pi_dexids::facts::fact;
use pi_dexids::texts::units;
use pi_dexids::types::Types;
use pi_model::listed::Units;
use std::alloc::{AllocError, Global};
use std::marker::Model;

/// A file of which the rules X1 to X17 hold. Each number that is asked for is below the size of its table. All that it
/// answers is read from the file, but for the first unit of each type and four facts of each string.
#[derive(Drop)]
pub struct Raw<'a> {
    types: Types<'a>,
    known: Vec<Known>,
}

impl<'a> Model for Raw<'a> {
    ghost use Rattle.std.specs.Prelude.{ℕ, List};
    ghost use Rattle.pi_dexraw.specs.Whole.{IsRaw};

    ghost Value = { List ℕ };

    ghost view = { λ r. r.types };

    ghost invariant = { λ r. IsRaw r.types r.known.items };
}

/// The bytes of an entry.
fn lend<'a>(file: &'a [u8], table: usize, width: usize, i: usize) -> &'a [u8]
    requires in_header { table + 8 ≤ length file.now }
    requires narrow { width ≤ 32 }
    requires holds { table_holds file.now table width ≡ true }
    requires counted { i < count_at file.now table }
    ensures { result.now ≡ take width (drop (entry_at file.now table width i) file.now) }
{
    file.split_at(entry(file, table, width, i))
        .1
        .split_at(width)
        .0
}

impl<'a> Raw<'a> {
    /// Tests the rules X1 to X17 and tells the first one that is broken.
    pub fn new(alloc: Global, bytes: &'a [u8]) -> Result<Raw<'a>, DexFault>
        requires { length bytes.now ≤ most_bytes }
        ensures told { Tells (broken_tables_rule bytes.now) result }
        ensures value { IfOk result (λ raw. raw ≡ bytes.now) }
    {
        match ask_all(alloc, bytes) {
            Ok((types, known)) => Ok(Raw { types, known }),
            Err(fault) => Err(fault),
        }
    }

    /// The bytes of the file.
    pub fn file(&self) -> &'a [u8]
        ensures value { result.now ≡ self.now }
        ensures small { length self.now ≤ most_bytes }
        ensures header { 112 ≤ length self.now }
        ensures kept { broken_tables_rule self.now ≡ None }
        ensures tables { HasTables self.now }
    {
        self.types.file()
    }

    /// The bytes of a string before its 0.
    #[tactic(auto, using(crate::proofs::Chain::strings_hold))]
    pub fn string(&self, i: u32) -> &'a [u8]
        requires { i < count_at self.now string_ids }
        ensures { result.now ≡ string_bytes self.now i }
    {
        text_bytes(self.file(), i as usize)
    }

    /// The units of a string.
    pub fn units(&self, alloc: Global, i: u32) -> Result<Units, AllocError>
        requires { i < count_at self.now string_ids }
        ensures { IfOk result (λ units. units ≡ string_units self.now i) }
    {
        units(alloc, self.file(), i as usize)
    }

    /// Which of the known texts a string is.
    pub(crate) fn known(&self, s: u32) -> Known
        requires { s < count_at self.now string_ids }
        ensures { result ≡ known_of self.now s }
    {
        fact(self.known.as_slice(), s as usize)
    }

    /// The first unit of a type.
    pub(crate) fn letter(&self, t: u32) -> u16
        requires { t < count_at self.now type_ids }
        ensures { result ≡ letter_of self.now t }
    {
        self.types.letter(t as usize)
    }

    /// How many strings there are.
    pub fn strings(&self) -> u32
        ensures { result ≡ count_at self.now string_ids }
    {
        word(self.file(), STRING_IDS)
    }

    /// How many types there are.
    pub fn types(&self) -> u32
        ensures { result ≡ count_at self.now type_ids }
    {
        word(self.file(), TYPE_IDS)
    }

    /// How many prototypes there are.
    pub fn protos(&self) -> u32
        ensures { result ≡ count_at self.now proto_ids }
    {
        word(self.file(), PROTO_IDS)
    }

    /// How many fields there are.
    pub fn fields(&self) -> u32
        ensures { result ≡ count_at self.now field_ids }
    {
        word(self.file(), FIELD_IDS)
    }

    /// How many methods there are.
    pub fn methods(&self) -> u32
        ensures { result ≡ count_at self.now method_ids }
    {
        word(self.file(), METHOD_IDS)
    }

    /// How many class definitions there are.
    pub fn class_defs(&self) -> u32
        ensures { result ≡ count_at self.now class_defs }
    {
        word(self.file(), CLASS_DEFS)
    }

    /// The entry of a type.
    pub fn type_at(&self, i: u32) -> &'a [u8]
        requires { i < count_at self.now type_ids }
        ensures { result.now ≡ take 4 (drop (entry_at self.now type_ids 4 i) self.now) }
    {
        lend(self.file(), TYPE_IDS, 4, i as usize)
    }

    /// The entry of a prototype.
    pub fn proto(&self, i: u32) -> &'a [u8]
        requires { i < count_at self.now proto_ids }
        ensures { result.now ≡ take 12 (drop (entry_at self.now proto_ids 12 i) self.now) }
    {
        lend(self.file(), PROTO_IDS, 12, i as usize)
    }

    /// The entry of a field.
    pub fn field(&self, i: u32) -> &'a [u8]
        requires { i < count_at self.now field_ids }
        ensures { result.now ≡ take 8 (drop (entry_at self.now field_ids 8 i) self.now) }
    {
        lend(self.file(), FIELD_IDS, 8, i as usize)
    }

    /// The entry of a method.
    pub fn method(&self, i: u32) -> &'a [u8]
        requires { i < count_at self.now method_ids }
        ensures { result.now ≡ take 8 (drop (entry_at self.now method_ids 8 i) self.now) }
    {
        lend(self.file(), METHOD_IDS, 8, i as usize)
    }

    /// The entry of a class definition.
    pub fn class_def(&self, i: u32) -> &'a [u8]
        requires { i < count_at self.now class_defs }
        ensures { result.now ≡ take 32 (drop (entry_at self.now class_defs 32 i) self.now) }
    {
        lend(self.file(), CLASS_DEFS, 32, i as usize)
    }
}
