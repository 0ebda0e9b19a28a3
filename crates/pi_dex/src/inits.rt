// What static values set their fields to.

ghost use Rattle.std.specs.Prelude.{◌≡◌, ◌+◌, ◌*◌, ◌^◌, ◌<◌, ◌≤◌};
ghost use Rattle.pi_format.specs.Says.Classes.{word_init, long_init, init_of};
ghost use Rattle.pi_insn.specs.Numbers.{signed_extension};
ghost use Rattle.pi_dex.specs.Judged.{IsInit};

use pi_classdata::EncodedValue;
use pi_dexcode::Named;
use pi_model::describe::Init;

/// A value of 32 bits; 0 is as no value.
fn word_init(n: u32) -> Init
    ensures { result ≡ word_init n }
{
    if n == 0 { Init::Zero } else { Init::Word(n) }
}

/// A value of 64 bits; 0 is as no value.
fn long_init(n: u64) -> Init
    ensures { result ≡ long_init n }
{
    if n == 0 { Init::Zero } else { Init::Long(n) }
}

/// The bits of a number extended by its sign up to the last of a range; half of so many numbers are below the sign.
fn extended(half: u64, last: u64, n: u64) -> u64
    requires some { 1 ≤ half }
    requires half { 2 * half ≤ last + 1 }
    requires range { n < 2 * half }
    ensures value { result ≡ signed_extension half (last + 1) n }
    ensures fits { result ≤ last }
{
    if n < half {
        return n;
    }
    n + (last - (2 * (half - 1) + 1))
}

/// The sign of a number of one byte and so many more.
#[tactic(auto, using(crate::proofs::Signs::last_sign))]
fn sign_of(arg: u8) -> u64
    requires { arg < 8 }
    ensures { result ≡ 2 ^ (8 * arg + 7) }
{
    match arg {
        0 => 1 << 7,
        1 => 1 << 15,
        2 => 1 << 23,
        3 => 1 << 31,
        4 => 1 << 39,
        5 => 1 << 47,
        6 => 1 << 55,
        _ => 1 << 63,
    }
}

/// A number of at most four bytes.
fn small(arg: u8, number: u64) -> u32
    requires arg { arg < 4 }
    requires number { number < 256 ^ (arg + 1) }
    ensures { result ≡ number }
{
    number as u32
}

/// The number of a byte, a short or an int extended by its sign to 32 bits.
fn signed_word(arg: u8, number: u64) -> u32
    requires arg { arg < 4 }
    requires number { number < 256 ^ (arg + 1) }
    ensures { result ≡ signed_extension (2 ^ (8 * arg + 7)) (2 ^ 32) number }
{
    let half = sign_of(arg);
    extended(half, u32::MAX as u64, number) as u32
}

/// The number of a long extended by its sign to 64 bits.
fn signed_long(arg: u8, number: u64) -> u64
    requires arg { arg < 8 }
    requires number { number < 256 ^ (arg + 1) }
    ensures { result ≡ signed_extension (2 ^ (8 * arg + 7)) (2 ^ 64) number }
{
    let half = sign_of(arg);
    extended(half, u64::MAX, number)
}

/// What a value sets its field to.
#[tactic(auto, unfolding(pi_format::specs::Says::Classes::init_of))]
pub(crate) fn init_of(names: &Named<'_>, value: &EncodedValue) -> Init
    requires { IsInit names.now.file value.now }
    ensures { result ≡ init_of names.now value.now }
{
    match value.kind {
        0x00 | 0x02 | 0x04 => word_init(signed_word(value.arg, value.number)),
        0x03 => word_init(small(value.arg, value.number)),
        0x06 => long_init(signed_long(value.arg, value.number)),
        0x1f => word_init(value.arg as u32),
        0x17 => Init::Str(names.string_name(small(value.arg, value.number))),
        0x18 => Init::Cls(names.type_name(small(value.arg, value.number))),
        _ => Init::Zero,
    }
}
