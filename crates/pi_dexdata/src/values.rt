// The values that set static fields.

ghost use Rattle.std.specs.Prelude.{◌≡◌, ◌≤◌, ◌^◌, ℕ, List, is_some};
ghost use Rattle.pi_insn.specs.Numbers.{short_bits};
ghost use Rattle.pi_model.specs.declared.numbers.NameNo.{NameNo};
ghost use Rattle.pi_format.specs.Rules.Descriptors.{begins_with};
ghost use Rattle.pi_contents.specs.Named.{init_content};
ghost use Rattle.pi_classtables.specs.Numbers.{Pools};
ghost use Rattle.pi_classtables.specs.Values.{empty_value, word_value, value_of};
ghost use Rattle.pi_dexdata.specs.Numbers.{init_number};

use pi_dextables::tables::Value;
use pi_model::describe::Init;

/// Whether a type begins with a letter.
fn begins_with(letter: u8, ty: &[u16]) -> bool
    ensures { result ≡ begins_with letter ty.now }
{
    match ty {
        [first, ..] => u16::from(letter) == *first,
        [] => false,
    }
}

/// Nothing, by the first letter of the type: zero, false or null.
fn empty_value(ty: &[u16]) -> Value
    ensures { result ≡ empty_value ty.now }
{
    let (kind, arg) = if begins_with(b'B', ty) {
        (0x00, 0)
    } else if begins_with(b'S', ty) {
        (0x02, 1)
    } else if begins_with(b'C', ty) {
        (0x03, 1)
    } else if begins_with(b'I', ty) {
        (0x04, 3)
    } else if begins_with(b'J', ty) {
        (0x06, 7)
    } else if begins_with(b'Z', ty) {
        (0x1f, 0)
    } else {
        (0x1e, 0)
    };
    Value {
        kind,
        arg,
        number: 0,
    }
}

/// Whether a number of 32 bits extends the bits of one with that half of its range.
fn extends(half: u32, word: u32) -> bool
    requires some { 1 ≤ half }
    requires half { half ≤ 2 ^ 31 }
    ensures { result ≡ is_some (short_bits half (2 ^ 32) word) }
{
    word < half || word > u32::MAX - half
}

/// A number of 32 bits: in the bytes that the type has, where it fits these, and else as an int.
fn word_value(ty: &[u16], word: u32) -> Value
    ensures { result ≡ word_value ty.now word }
{
    let (kind, arg, number) = if begins_with(b'B', ty) && extends(128, word) {
        (0x00, 0, word % 256)
    } else if begins_with(b'S', ty) && extends(1 << 15, word) {
        (0x02, 1, word % 65536)
    } else if begins_with(b'C', ty) && word < 65536 {
        (0x03, 1, word)
    } else if begins_with(b'Z', ty) && word < 2 {
        (0x1f, word as u8, 0)
    } else {
        (0x04, 3, word)
    };
    Value {
        kind,
        arg,
        number: number.into(),
    }
}

/// The value that sets a field of a type; `number` is that of the string or type which the value names, 0 where it names none.
#[tactic(auto, unfolding(pi_classtables::specs::Values::value_of))]
pub fn value(ty: &[u16], init: Init, number: u32) -> Value
    ensures { (p : Pools) (text : NameNo → List ℕ) → init_number p (init_content text init) ≡ number → result ≡ value_of p ty.now (init_content text init) }
{
    match init {
        Init::Zero => empty_value(ty),
        Init::Word(word) => word_value(ty, word),
        Init::Long(long) => Value {
            kind: 0x06,
            arg: 7,
            number: long,
        },
        Init::Str(_) => Value {
            kind: 0x17,
            arg: 3,
            number: number.into(),
        },
        Init::Cls(_) => Value {
            kind: 0x18,
            arg: 3,
            number: number.into(),
        },
    }
}
