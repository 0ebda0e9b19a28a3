// The head of a code item, and its units.

ghost use Rattle.std.specs.Prelude.{◌≡◌, ◌+◌, ◌*◌, ◌<◌, ◌≤◌, length, true, IfOk};
ghost use Rattle.pi_bytes.specs.Numbers.{word_at, word_end};
ghost use Rattle.pi_format.specs.Rules.CodeItems.{code_head, code_lies};
ghost use Rattle.pi_format.specs.Rules.Pieces.{code_units};

use pi_bytes::numbers::{half, halves, is_in_file, word};
use std::alloc::{AllocError, Global};
use std::marker::Model;

/// How many registers a code item has, argument words, words that it passes on, ranges with handlers, and units.
#[derive(Clone, Copy, Debug)]
pub struct CodeHead {
    pub registers: u16,
    pub ins: u16,
    pub outs: u16,
    pub tries: u16,
    pub units: u32,
}

impl Model for CodeHead {
    ghost use Rattle.pi_format.specs.Rules.CodeItems.{CodeHead as Head};

    ghost Value = { Head };

    ghost view = { λ h. record { registers = h.registers; ins = h.ins; outs = h.outs; tries = h.tries; units = h.units } };

    ghost inverse = { λ h. record { registers = h.registers; ins = h.ins; outs = h.outs; tries = h.tries; units = h.units } };
}

/// Whether the head and the units of a code item are in the file, at a multiple of four.
#[tactic(auto, unfolding(pi_format::specs::Rules::CodeItems::code_lies))]
pub fn lies(file: &[u8], at: usize) -> bool
    requires { at < word_end }
    ensures { result ≡ code_lies file.now at }
{
    at % 4 == 0
        && is_in_file(file, at, 16)
        && is_in_file(file, at + 16, 2 * word(file, at + 12) as usize)
}

/// The head of a code item.
pub fn head(file: &[u8], at: usize) -> CodeHead
    requires { code_lies file.now at ≡ true }
    ensures { result ≡ code_head file.now at }
{
    CodeHead {
        registers: half(file, at),
        ins: half(file, at + 2),
        outs: half(file, at + 4),
        tries: half(file, at + 6),
        units: word(file, at + 12),
    }
}

/// The units of a code item.
pub fn units(alloc: Global, file: &[u8], at: usize) -> Result<Vec<u16>, AllocError>
    requires { code_lies file.now at ≡ true }
    ensures { IfOk result (λ list. list.items ≡ code_units file.now at) }
{
    halves(alloc, file, at + 16, word(file, at + 12) as usize)
}
