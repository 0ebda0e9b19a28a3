// The units of an instruction. One function for each format that has an operand; which of them it is, the row of the
// opcode says.

ghost use Rattle.std.specs.Prelude.{◌≡◌, Some, [], ◌∷◌};
ghost use Rattle.pi_insn.specs.Packed.{list_where};
ghost use Rattle.pi_insn.specs.Writing.{as_units, single_of, pair_of, triple_of, literal_of, with_literal_of, goto_of, byte_alone, pair_alone, unit_behind, byte_and_unit, pair_and_unit, three_bytes, two_units_behind, word_behind, byte_and_word, units_35c, units_3rc, units_51l, units_by, few_of, few_units, run_units, units_where, encoding, IsInTable, Writes};
ghost use Rattle.pi_insn.specs.Table.{row_of};

use crate::fault::EncodeError;
use crate::operands::{
    compare_of, goto_of, high_of, listing_of, literal_of, named_of, named_pair_of, pair_of,
    payload_of, single_of, test_of, triple_of, with_literal_of,
};
use crate::packed::{Packed, below, one, three, two, with_byte, with_long, with_pair, with_word};
use crate::raw::{RawBody, RawInsn, RawRegs};
use crate::table::{Row, row_of};
use pi_model::listed::Units;
use std::alloc::Global;

/// A unit with an index of 16 bits.
fn with_index(first: u16, index: u32) -> Option<Packed>
    ensures { list_where result ≡ as_units (first ∷ index ∷ []) }
{
    if index > u16::MAX as u32 {
        return None;
    }
    Some(two(first, index as u16))
}

fn few_of(op: u8, index: u32, n: u8, regs: [u16; 5]) -> Option<Packed>
    ensures { list_where result ≡ few_of op index n regs }
{
    let [c, d, e, f, g] = regs;
    let n = below(6, n as u16)?;
    let c = below(16, c)?;
    let d = below(16, d)?;
    let e = below(16, e)?;
    let f = below(16, f)?;
    let g = below(16, g)?;
    if index > u16::MAX as u32 {
        return None;
    }
    Some(three(
        op as u16 + 256 * (g + 16 * n),
        index as u16,
        c + 16 * d + 256 * e + 4096 * f,
    ))
}

fn few_units(op: u8, index: u32, regs: RawRegs) -> Option<Packed>
    ensures { list_where result ≡ few_units op index regs }
{
    match regs {
        RawRegs::Few { n, regs } => few_of(op, index, n, regs),
        RawRegs::Run { .. } => None,
    }
}

fn run_units(op: u8, index: u32, regs: RawRegs) -> Option<Packed>
    ensures { list_where result ≡ run_units op index regs }
{
    let RawRegs::Run { first, n } = regs else {
        return None;
    };
    let unit = with_byte(op, n as u16)?;
    if index > u16::MAX as u32 {
        return None;
    }
    Some(three(unit, index as u16, first))
}

fn units_12x(op: u8, body: &RawBody) -> Option<Packed>
    ensures { list_where result ≡ pair_alone op (pair_of body.now) }
{
    let (a, b) = pair_of(body)?;
    Some(one(with_pair(op, a, b)?))
}

fn units_11n(op: u8, body: &RawBody) -> Option<Packed>
    ensures { list_where result ≡ pair_alone op (literal_of 8 body.now) }
{
    let (a, n) = literal_of(8, body)?;
    Some(one(with_pair(op, a, n as u16)?))
}

fn units_11x(op: u8, body: &RawBody) -> Option<Packed>
    ensures { list_where result ≡ byte_alone op (single_of body.now) }
{
    let a = single_of(body)?;
    Some(one(with_byte(op, a)?))
}

fn units_10t(op: u8, body: &RawBody) -> Option<Packed>
    ensures { list_where result ≡ byte_alone op (goto_of 128 body.now) }
{
    let n = goto_of(128, body)?;
    Some(one(with_byte(op, n as u16)?))
}

fn units_20t(op: u8, body: &RawBody) -> Option<Packed>
    ensures { list_where result ≡ unit_behind op (goto_of 32768 body.now) }
{
    let n = goto_of(32768, body)?;
    Some(two(op as u16, n as u16))
}

fn byte_and_unit(op: u8, operands: Option<(u16, u16)>) -> Option<Packed>
    ensures { list_where result ≡ byte_and_unit op operands }
{
    let (a, b) = operands?;
    Some(two(with_byte(op, a)?, b))
}

fn byte_and_index(op: u8, operands: Option<(u16, u32)>) -> Option<Packed>
    ensures { list_where result ≡ byte_and_unit op operands }
{
    let (a, index) = operands?;
    let first = with_byte(op, a)?;
    with_index(first, index)
}

fn pair_and_index(op: u8, operands: Option<(u16, u16, u32)>) -> Option<Packed>
    ensures { list_where result ≡ pair_and_unit op operands }
{
    let (a, b, index) = operands?;
    let first = with_pair(op, a, b)?;
    with_index(first, index)
}

fn units_23x(op: u8, body: &RawBody) -> Option<Packed>
    ensures { list_where result ≡ three_bytes op (triple_of body.now) }
{
    let (a, b, c) = triple_of(body)?;
    let first = with_byte(op, a)?;
    let b = below(256, b)?;
    let c = below(256, c)?;
    Some(two(first, b + 256 * c))
}

fn units_22b(op: u8, body: &RawBody) -> Option<Packed>
    ensures { list_where result ≡ three_bytes op (with_literal_of 128 body.now) }
{
    let (a, b, n) = with_literal_of(128, body)?;
    let first = with_byte(op, a)?;
    let b = below(256, b)?;
    let n = below(256, n as u16)?;
    Some(two(first, b + 256 * n))
}

fn units_30t(op: u8, body: &RawBody) -> Option<Packed>
    ensures { list_where result ≡ word_behind op (goto_of 2147483648 body.now) }
{
    let n = goto_of(1 << 31, body)?;
    Some(with_word(op as u16, n))
}

fn units_32x(op: u8, body: &RawBody) -> Option<Packed>
    ensures { list_where result ≡ two_units_behind op (pair_of body.now) }
{
    let (a, b) = pair_of(body)?;
    Some(three(op as u16, a, b))
}

fn byte_and_word(op: u8, operands: Option<(u16, u32)>) -> Option<Packed>
    ensures { list_where result ≡ byte_and_word op operands }
{
    let (a, n) = operands?;
    Some(with_word(with_byte(op, a)?, n))
}

fn units_35c(op: u8, body: &RawBody) -> Option<Packed>
    ensures { list_where result ≡ units_35c op body.now }
{
    let (index, regs) = listing_of(body)?;
    few_units(op, index, regs)
}

fn units_3rc(op: u8, body: &RawBody) -> Option<Packed>
    ensures { list_where result ≡ units_3rc op body.now }
{
    let (index, regs) = listing_of(body)?;
    run_units(op, index, regs)
}

fn units_51l(op: u8, body: &RawBody) -> Option<Packed>
    ensures { list_where result ≡ units_51l op body.now }
{
    match body {
        RawBody::ConstWide { a, v } => Some(with_long(with_byte(op, *a)?, *v)),
        _ => None,
    }
}

/// The units of a row's instruction, where each operand fits.
fn units_by(row: Row, op: u8, body: &RawBody) -> Option<Packed>
    ensures { list_where result ≡ units_by row op body.now }
{
    match row {
        Row::F10x(_) => Some(one(op as u16)),
        Row::F12x(_) => units_12x(op, body),
        Row::F11n => units_11n(op, body),
        Row::F11x(_) => units_11x(op, body),
        Row::F10t => units_10t(op, body),
        Row::F20t => units_20t(op, body),
        Row::F22x(_) => byte_and_unit(op, pair_of(body)),
        Row::F21t(_) => byte_and_index(op, test_of(32768, body)),
        Row::F21s(_) => byte_and_index(op, literal_of(32768, body)),
        Row::F21h(_) => byte_and_unit(op, high_of(body)),
        Row::F21c(_) => byte_and_index(op, named_of(body)),
        Row::F23x(_) => units_23x(op, body),
        Row::F22b(_) => units_22b(op, body),
        Row::F22t(_) => pair_and_index(op, compare_of(32768, body)),
        Row::F22s(_) => pair_and_index(op, with_literal_of(32768, body)),
        Row::F22c(_) => pair_and_index(op, named_pair_of(body)),
        Row::F30t => units_30t(op, body),
        Row::F32x(_) => units_32x(op, body),
        Row::F31i(_) => byte_and_word(op, literal_of(1 << 31, body)),
        Row::F31t(_) => byte_and_word(op, payload_of(1 << 31, body)),
        Row::F31c => byte_and_word(op, named_of(body)),
        Row::F35c(_) => units_35c(op, body),
        Row::F3rc(_) => units_3rc(op, body),
        Row::F51l => units_51l(op, body),
    }
}

/// The units of an instruction. `Range` exactly where an operand does not fit the format of its opcode; want of memory
/// is answered only where all fit.
#[tactic(auto, unfolding(crate::specs::Writing::encoding))]
pub fn encode(alloc: Global, insn: &RawInsn) -> Result<Units, EncodeError>
    requires { IsInTable insn.now }
    ensures { Writes (encoding insn.now) result }
{
    let Some(row) = row_of(insn.op) else {
        return Err(EncodeError::Range);
    };
    let Some(units) = units_by(row, insn.op, &insn.body) else {
        return Err(EncodeError::Range);
    };
    let list = Units::from_slice(alloc, units.as_slice())?;
    Ok(list)
}
