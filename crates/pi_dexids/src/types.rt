// The types of a file by the first units of their descriptors, which are looked up once.

ghost use Rattle.std.specs.Prelude.{◌≡◌, ◌<◌, ◌≤◌, ◌||◌, ℕ, nat_le, None, IfOk};
ghost use Rattle.pi_format.specs.Tables.{count_at, type_ids, class_defs};
ghost use Rattle.pi_format.specs.Rules.Strings.{type_units, broken_types};
ghost use Rattle.pi_format.specs.Rules.Descriptors.{is_class_type, is_array_type, is_void, short_letter, words_of_type};
ghost use Rattle.pi_format.specs.Rules.Members.{is_value_type};
ghost use Rattle.pi_format.specs.Rules.Classes.{class_entry, is_object, is_defined_in, stands_earlier};
ghost use Rattle.pi_dexids.specs.Facts.{AreFacts, letter_of, first_definition};
ghost use Rattle.pi_dexids.specs.Tails.{AreTails};
ghost use Rattle.pi_dexids.specs.Tables.{HasTables};

use crate::entries::{CLASS_DEFS, TYPE_IDS, class_def_at, count, string_of_type};
use crate::facts::{fact, note, numbers};
use crate::tail::Tail;
use crate::tails::string;
use crate::texts::spells;
use std::alloc::{AllocError, Global};
use std::marker::Model;

/// A file, and for each of its types the first unit and the first definition.
#[derive(Drop)]
pub struct Types<'a> {
    file: &'a [u8],
    letters: Vec<u16>,
    firsts: Vec<u32>,
}

impl<'a> Model for Types<'a> {
    ghost use Rattle.std.specs.Prelude.{ℕ, List};
    ghost use Rattle.pi_dexids.specs.Facts.{KnowsTypes};

    ghost Value = { List ℕ };

    ghost view = { λ t. t.file.now };

    ghost invariant = { λ t. KnowsTypes t.file.now t.letters.items t.firsts.items };
}

/// `Ljava/lang/Object;`.
const OBJECT: [u16; 18] = [
    76, 106, 97, 118, 97, 47, 108, 97, 110, 103, 47, 79, 98, 106, 101, 99, 116, 59,
];

/// The first unit of a type.
#[tactic(auto, unfolding(crate::specs::Facts::letter_of))]
fn letter(file: &[u8], tails: &[Tail], t: usize) -> u16
    requires tables { HasTables file.now }
    requires types { broken_types file.now ≡ None }
    requires tails { AreTails file.now tails.now }
    requires counted { t < count_at file.now type_ids }
    ensures { result ≡ letter_of file.now t }
{
    string(file, tails, string_of_type(file, t)).first
}

/// The first unit of each type.
fn letters(alloc: Global, file: &[u8], tails: &[Tail]) -> Result<Vec<u16>, AllocError>
    requires tables { HasTables file.now }
    requires types { broken_types file.now ≡ None }
    requires tails { AreTails file.now tails.now }
    ensures { IfOk result (λ list. AreFacts (letter_of file.now) (count_at file.now type_ids) list.items) }
{
    let mut list = Vec::new(alloc);
    for t in 0..count(file, TYPE_IDS) {
        list.push(letter(file, tails, t))?;
    }
    Ok(list)
}

/// The first definition of each type, or else the number of definitions.
fn firsts(alloc: Global, file: &[u8]) -> Result<Vec<u32>, AllocError>
    requires tables { HasTables file.now }
    ensures { IfOk result (λ list. AreFacts (first_definition file.now 0) (count_at file.now type_ids) list.items) }
{
    let all = count(file, CLASS_DEFS);
    let mut list = numbers(alloc, count(file, TYPE_IDS), all as u32)?;
    for done in 0..all {
        let i = all - 1 - done;
        note(&mut list, class_def_at(file, i).class as usize, i as u32);
    }
    Ok(list)
}

impl<'a> Types<'a> {
    /// Looks the types of a file up.
    pub fn new(alloc: Global, file: &'a [u8], tails: &[Tail]) -> Result<Types<'a>, AllocError>
        requires tables { HasTables file.now }
        requires types { broken_types file.now ≡ None }
        requires tails { AreTails file.now tails.now }
        ensures { IfOk result (λ t. t ≡ file.now) }
    {
        let letters = letters(alloc, file, tails)?;
        let firsts = firsts(alloc, file)?;
        Ok(Types {
            file,
            letters,
            firsts,
        })
    }

    /// The file.
    pub fn file(&self) -> &'a [u8]
        ensures same { result.now ≡ self.now }
        ensures tables { HasTables self.now }
    {
        self.file
    }

    /// How many types there are.
    pub fn count(&self) -> usize
        ensures { result ≡ count_at self.now type_ids }
    {
        self.letters.len()
    }

    /// The first unit of a type.
    pub fn letter(&self, t: usize) -> u16
        requires { t < count_at self.now type_ids }
        ensures { result ≡ letter_of self.now t }
    {
        fact(self.letters.as_slice(), t)
    }

    /// Whether a type is that of a class.
    #[tactic(auto, using(crate::proofs::Known::class_by), unfolding(crate::specs::Facts::letter_of))]
    pub fn is_class(&self, t: usize) -> bool
        requires { t < count_at self.now type_ids }
        ensures { result ≡ is_class_type (type_units self.now t) }
    {
        self.letter(t) == 76
    }

    /// Whether a type is that of a class or of an array.
    #[tactic(auto, using(crate::proofs::Known::class_by, crate::proofs::Known::array_by), unfolding(crate::specs::Facts::letter_of))]
    pub fn is_reference(&self, t: usize) -> bool
        requires { t < count_at self.now type_ids }
        ensures { result ≡ (is_class_type (type_units self.now t) || is_array_type (type_units self.now t)) }
    {
        let letter = self.letter(t);
        letter == 76 || letter == 91
    }

    /// Whether a type is V.
    #[tactic(auto, using(crate::proofs::Known::void_by), unfolding(crate::specs::Facts::letter_of))]
    fn is_void(&self, t: usize) -> bool
        requires { t < count_at self.now type_ids }
        ensures { result ≡ is_void (type_units self.now t) }
    {
        self.letter(t) == 86
    }

    /// Whether there is a type of that number, and it is a value.
    pub fn is_value(&self, t: usize) -> bool
        ensures { result ≡ is_value_type self.now t }
    {
        t < self.count() && !self.is_void(t)
    }

    /// The letter of a type in a short form.
    #[tactic(auto, using(crate::proofs::Known::short_by), unfolding(crate::specs::Facts::letter_of))]
    pub fn short(&self, t: usize) -> u16
        requires { t < count_at self.now type_ids }
        ensures { result ≡ short_letter (type_units self.now t) }
    {
        let letter = self.letter(t);
        if letter == 91 { 76 } else { letter }
    }

    /// The argument words of a type.
    #[tactic(auto, using(crate::proofs::Known::words_by), unfolding(crate::specs::Facts::letter_of))]
    pub fn words(&self, t: usize) -> usize
        requires { t < count_at self.now type_ids }
        ensures value { result ≡ words_of_type (type_units self.now t) }
        ensures few { result ≤ 2 }
    {
        if self.letter(t) == 74 { 2 } else { 1 }
    }

    /// Whether a type is `Ljava/lang/Object;`.
    #[tactic(auto, unfolding(pi_format::specs::Rules::Classes::is_object))]
    pub fn is_object(&self, alloc: Global, t: usize) -> Result<bool, AllocError>
        requires { t < count_at self.now type_ids }
        ensures { IfOk result (λ r. r ≡ is_object self.now t) }
    {
        spells(alloc, self.file, string_of_type(self.file, t), &OBJECT)
    }

    /// Whether one of the first definitions is that of a type.
    #[tactic(auto, using(crate::proofs::Firsts::defined_by))]
    pub fn is_defined(&self, n: usize, t: usize) -> bool
        requires counted { t < count_at self.now type_ids }
        requires few { n ≤ count_at self.now class_defs }
        ensures { result ≡ is_defined_in self.now n t }
    {
        (fact(self.firsts.as_slice(), t) as usize) < n
    }

    /// From which definition on a type stands earlier if the file defines it.
    #[tactic(auto, using(crate::proofs::Firsts::earlier_by, crate::proofs::Firsts::earlier_always))]
    pub fn behind(&self, t: usize) -> usize
        requires { t < count_at self.now type_ids }
        ensures value { (i : ℕ) → i < count_at self.now class_defs → stands_earlier self.now i t ≡ nat_le result i }
        ensures few { result ≤ count_at self.now class_defs }
    {
        let first = fact(self.firsts.as_slice(), t) as usize;
        if first < count(self.file, CLASS_DEFS) {
            first + 1
        } else {
            0
        }
    }
}
