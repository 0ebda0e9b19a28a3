// What stands at an address of a code: an instruction, or the payload of one.

ghost use Rattle.std.specs.Prelude.{◌≡◌, ◌+◌, ◌*◌, ◌/◌, ◌<◌, ◌≤◌, length, drop, Some, None, IfSome, IfNone};
ghost use Rattle.pi_bytes.specs.Numbers.{most_bytes};
ghost use Rattle.pi_insn.specs.Lent.{data_of};
ghost use Rattle.pi_format.specs.Rules.Entries.{each_from};
ghost use Rattle.pi_format.specs.Rules.Pieces.{What as Found, front_piece, payload_units, signed_key, key_rises, keys_rise};
ghost use Rattle.pi_codeitem.specs.Asking.{data_asker, asker, data_in};

use crate::numbers::{signed, word};
use pi_insn::{Payload, RawInsn, decode, payload};
use std::marker::Model;

/// An instruction, or the data that some instructions point at.
#[derive(Debug, Drop)]
pub enum What<'a> {
    Instruction(RawInsn),
    Payload(Payload<'a>),
}

/// What stands at an address, which counts units from the first one, and how many units it takes.
#[derive(Debug, Drop)]
pub struct Piece<'a> {
    pub at: u32,
    pub units: u32,
    pub what: What<'a>,
}

impl<'a> Model for Piece<'a> {
    ghost use Rattle.pi_format.specs.Rules.Pieces.{Piece as Found};

    ghost Value = { Found };

    ghost use Rattle.pi_codeitem.specs.Whats.{what_of};

    ghost view = { λ p. record { at = p.at; units = p.units; what = what_of p.what } };
}

/// The signed key of a case, by the units of all keys.
fn signed_key(keys: &[u16], k: usize) -> i32
    requires { 2 * k + 1 < length keys.now }
    ensures { result ≡ signed_key keys.now k }
{
    signed(word(keys, 2 * k))
}

/// Whether a key is above the one before it.
fn key_rises(keys: &[u16], k: usize) -> bool
    requires { 2 * k + 1 < length keys.now }
    ensures { result ≡ key_rises keys.now k }
{
    k == 0 || signed_key(keys, k - 1) < signed_key(keys, k)
}

/// Whether the keys of a sparse switch rise.
fn keys_rise(keys: &[u16]) -> bool
    ensures { result ≡ keys_rise keys.now }
{
    for k in 0..keys.len() / 2 {
        if !key_rises(keys, k) {
            return false;
        }
    }
    true
}

/// The units of a payload.
fn size_of(payload: &Payload<'_>) -> usize
    requires { payload_units (data_of payload.now) ≤ most_bytes }
    ensures { result ≡ payload_units (data_of payload.now) }
{
    match payload {
        Payload::Packed { targets, .. } => 4 + targets.len(),
        Payload::Sparse { keys, targets } => 2 + keys.len() + targets.len(),
        Payload::Array { items, .. } => 4 + items.len(),
    }
}

/// The opcode of the instructions that may point at a payload.
fn asker_of(payload: &Payload<'_>) -> Option<u8>
    ensures { result ≡ data_asker (data_of payload.now) }
{
    match payload {
        Payload::Packed { .. } => Some(0x2b),
        Payload::Sparse { keys, .. } => { if keys_rise(keys) { Some(0x2c) } else { None } }
        Payload::Array { .. } => Some(0x26),
    }
}

impl<'a> Piece<'a> {
    /// An instruction as a piece.
    fn of_insn(at: u32, units: u32, insn: RawInsn) -> Piece<'a>
        ensures { result ≡ record { at = at; units = units; what = Found.Instruction insn } }
    {
        Piece {
            at,
            units,
            what: What::Instruction(insn),
        }
    }

    /// A payload as a piece.
    fn of_payload(at: u32, payload: Payload<'a>) -> Piece<'a>
        requires { payload_units (data_of payload) ≤ most_bytes }
        ensures { result ≡ record { at = at; units = payload_units (data_of payload.entry); what = Found.Payload (data_of payload.entry) } }
    {
        let units = size_of(&payload) as u32;
        Piece {
            at,
            units,
            what: What::Payload(payload),
        }
    }

    /// What stands at an address, None where neither an instruction nor a payload stands there whole.
    #[tactic(auto, using(crate::proofs::Fronts::payload_inside))]
    pub(crate) fn front(units: &'a [u16], at: usize) -> Option<Piece<'a>>
        requires inside { at < length units.now }
        requires small { length units.now ≤ most_bytes }
        ensures value { result ≡ front_piece at (drop at units.now) }
        ensures begins { IfSome result (λ p. p.at ≡ at) }
        ensures inside { IfSome result (λ p. at + p.units ≤ length units.now) }
        ensures some { IfSome result (λ p. 1 ≤ p.units) }
    {
        if let Ok((insn, size)) = decode(units, at) {
            return Some(Piece::of_insn(at as u32, size as u32, insn));
        }
        match payload(units, at) {
            None => None,
            Some(payload) => Some(Piece::of_payload(at as u32, payload)),
        }
    }

    /// The payload that the piece is.
    pub fn payload(&self) -> Option<Payload<'a>>
        ensures none { IfNone result (data_in self.now.what ≡ None) }
        ensures some { IfSome result (λ p. data_in self.now.what ≡ Some (data_of p)) }
    {
        match &self.what {
            What::Instruction(_) => None,
            What::Payload(payload) => Some(*payload),
        }
    }

    /// The opcode of the instructions that may point at the piece.
    pub(crate) fn asker(&self) -> Option<u8>
        ensures { result ≡ asker self.now.what }
    {
        match &self.what {
            What::Instruction(_) => None,
            What::Payload(payload) => asker_of(payload),
        }
    }
}
