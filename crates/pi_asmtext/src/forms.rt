// The operands of instructions, and the kinds of words that they are.

ghost use Rattle.std.specs.Prelude.{◌≡◌};
ghost use Rattle.pi_asmtext.specs.Derivatives.{fits};
ghost use Rattle.pi_asmtext.specs.Words.{unit_test};
ghost use Rattle.pi_asmtext.specs.Symbols.{pattern_of, same_text, form_in};
ghost use Rattle.pi_asmtext.specs.Spelling.{start_of};
ghost use Rattle.pi_asmtext.specs.Checks.{form_of};

use crate::table::INSTRUCTIONS;
use crate::words::{Member, Spell, Tail, spells};

/// A kind of word.
#[derive(Clone, Copy)]
pub(crate) enum Word {
    Name,
    Desc,
    Proto,
    Number,
    Register,
    Label,
    Text,
    Field,
    Method,
}

/// What a list in braces has between its commas.
#[derive(Clone, Copy)]
pub(crate) enum Item {
    One(Word),
    /// A number and a label.
    Pair,
}

/// A kind of operand.
#[derive(Clone, Copy)]
pub(crate) enum Kind {
    Word(Word),
    /// Two registers in braces with .. between them.
    Range,
    List(Item),
}

/// The operands of an instruction.
#[derive(Clone, Copy)]
pub(crate) enum Form {
    Nothing,
    One(Kind),
    Two(Kind, Kind),
    Three(Kind, Kind, Kind),
}

fn start_of(word: Word) -> Spell
    ensures { result ≡ start_of word }
{
    match word {
        Word::Name => Spell::Name,
        Word::Desc => Spell::Type(Tail::End),
        Word::Proto => Spell::Proto,
        Word::Number => Spell::Number,
        Word::Register => Spell::Register,
        Word::Label => Spell::Label,
        Word::Text => Spell::Quote,
        Word::Field => Spell::First(Tail::Member(Member::Field)),
        Word::Method => Spell::First(Tail::Member(Member::Method)),
    }
}

/// Whether units are a word of that kind.
pub(crate) fn is_word(word: Word, units: &[u16]) -> bool
    ensures { result ≡ fits unit_test (pattern_of word) units.now }
{
    spells(start_of(word), units)
}

/// Whether units are that ASCII text.
pub(crate) fn is_text(units: &[u16], text: &str) -> bool
    ensures { result ≡ same_text units.now text.now }
{
    let bytes = text.as_bytes();
    if units.len() != bytes.len() {
        return false;
    }
    for i in 0..bytes.len() {
        if units[i] != bytes[i] as u16 {
            return false;
        }
    }
    true
}

fn form_in(rows: &[(&str, Form)], units: &[u16]) -> Option<Form>
    ensures { result ≡ form_in (λ r. r.0.now) (λ r. r.1) rows.now units.now }
{
    for (name, form) in rows {
        if is_text(units, name) {
            return Some(*form);
        }
    }
    None
}

/// The operands of the instruction of that name.
pub(crate) fn form_of(units: &[u16]) -> Option<Form>
    ensures { result ≡ form_of units.now }
{
    form_in(&INSTRUCTIONS, units)
}
