// Rule X22: the indices of instructions. docs/dex-format.md states it.

ghost use Rattle.std.specs.Prelude.{◌≡◌, ◌≤◌, length};
ghost use Rattle.pi_format.specs.Rules.Pieces.{index_holds, first_insn};
ghost use Rattle.pi_codeitem.specs.Asking.{passes};

use crate::bytes::is_index;
use crate::pieces::{Piece, What};
use crate::walks::Walk;
use pi_insn::RawBody;

// The places of the header where the numbers of strings, types, fields and methods stand.
const STRING_IDS: usize = 56;

const TYPE_IDS: usize = 64;

const FIELD_IDS: usize = 80;

const METHOD_IDS: usize = 88;

/// Whether the index of an instruction, where it has one, is one of the file's tables.
fn index_holds(file: &[u8], body: &RawBody) -> bool
    requires { 112 ≤ length file.now }
    ensures { result ≡ index_holds file.now body.now }
{
    match body {
        RawBody::ConstString { s, .. } => is_index(file, *s, STRING_IDS),
        RawBody::ConstClass { t, .. }
        | RawBody::CheckCast { t, .. }
        | RawBody::InstanceOf { t, .. }
        | RawBody::NewInstance { t, .. }
        | RawBody::NewArray { t, .. }
        | RawBody::Filled { t, .. } => is_index(file, *t, TYPE_IDS),
        RawBody::Iget { f, .. }
        | RawBody::Iput { f, .. }
        | RawBody::Sget { f, .. }
        | RawBody::Sput { f, .. } => is_index(file, *f, FIELD_IDS),
        RawBody::Invoke { m, .. } => is_index(file, *m, METHOD_IDS),
        _ => true,
    }
}

/// Whether a piece is no instruction with an index out of range.
fn passes(file: &[u8], piece: &Piece<'_>) -> bool
    requires { 112 ≤ length file.now }
    ensures { result ≡ passes (λ at i. index_holds file.now i.body) piece.now }
{
    match &piece.what {
        What::Instruction(insn) => index_holds(file, &insn.body),
        What::Payload(_) => true,
    }
}

/// The address of the first instruction whose index is out of range.
#[tactic(auto, using(crate::proofs::Askers::insn_ends))]
pub fn broken_index(file: &[u8], walk: &Walk<'_>) -> Option<u32>
    requires { 112 ≤ length file.now }
    ensures { result ≡ first_insn (λ at i. index_holds file.now i.body) walk.now.pieces }
{
    for k in 0..walk.len() {
        let piece = walk.piece(k);
        if !passes(file, &piece) {
            return Some(piece.at);
        }
    }
    None
}
