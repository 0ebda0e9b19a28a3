// Rule X23: the payloads that instructions point at. docs/dex-format.md states it.

ghost use Rattle.std.specs.Prelude.{◌≡◌};
ghost use Rattle.pi_format.specs.Rules.Pieces.{points_well, first_insn};
ghost use Rattle.pi_codeitem.specs.Asking.{passes};

use crate::pieces::{Piece, What};
use crate::walks::Walk;
use pi_insn::{RawBody, RawInsn};

/// Whether an instruction at an address points at no payload, or at one of its kind.
fn points_well(walk: &Walk<'_>, at: u32, insn: &RawInsn) -> bool
    ensures { result ≡ points_well walk.now.pieces at insn.now }
{
    match &insn.body {
        RawBody::FillArray { dist, .. } | RawBody::Switch { dist, .. } => {
            walk.is_asked_by(insn.op, at, *dist)
        }
        _ => true,
    }
}

/// Whether a piece is no instruction that points elsewhere.
fn passes(walk: &Walk<'_>, piece: &Piece<'_>) -> bool
    ensures { result ≡ passes (points_well walk.now.pieces) piece.now }
{
    match &piece.what {
        What::Instruction(insn) => points_well(walk, piece.at, insn),
        What::Payload(_) => true,
    }
}

/// The address of the first instruction that points at no payload of its kind.
#[tactic(auto, using(crate::proofs::Askers::insn_ends))]
pub fn broken_payload(walk: &Walk<'_>) -> Option<u32>
    ensures { result ≡ first_insn (points_well walk.now.pieces) walk.now.pieces }
{
    for k in 0..walk.len() {
        let piece = walk.piece(k);
        if !passes(walk, &piece) {
            return Some(piece.at);
        }
    }
    None
}
