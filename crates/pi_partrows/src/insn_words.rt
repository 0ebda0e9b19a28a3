// Instructions that rows spell, by a name and the operands in the order of the format's letters, as docs/dex-format.md has
// them: one for each kind of operand that can be too large for its place.
ghost use Rattle.std.specs.Prelude.{IfOk};
ghost use Rattle.pi_insn.specs.Writing.{IsInTable};

use pi_insn::{RawBody, RawInsn, RawRegs};
use pi_model::insn::{Arith, BinOp, Cond};
use pi_rows::fault::Fault;

/// The instruction of a name and its operands.
pub(crate) fn insn_of(name: &str, operands: &[i64]) -> Result<RawInsn, Fault>
    ensures { IfOk result IsInTable }
{
    match (name, operands) {
        ("const/4", [a, v]) => const_4(*a, *v),
        ("const-wide/high16", [a, v]) => const_wide(*a, *v),
        ("const-string", [a, s]) => const_string(*a, *s),
        ("array-length", [a, b]) => array_length(*a, *b),
        ("throw", [a]) => throw(*a),
        ("goto", [dist]) => goto(*dist),
        ("if-eqz", [a, dist]) => if_eqz(*a, *dist),
        ("add-int/2addr", [a, b, c]) => add_int(*a, *b, *c),
        ("filled-new-array", [t, c]) => filled(*t, *c),
        ("filled-new-array/range", [t, first, n]) => filled_range(*t, *first, *n),
        _ => Err(Fault::NoRow),
    }
}

#[tactic(auto, unfolding(pi_insn::specs::Table::row_of))]
fn const_4(a: i64, v: i64) -> Result<RawInsn, Fault>
    ensures { IfOk result IsInTable }
{
    let (a, v) = (u16::try_from(a)?, i32::try_from(v)?.cast_unsigned());
    let body = RawBody::Const { a, v };
    Ok(RawInsn { op: 0x12, body })
}

#[tactic(auto, unfolding(pi_insn::specs::Table::row_of))]
fn const_wide(a: i64, v: i64) -> Result<RawInsn, Fault>
    ensures { IfOk result IsInTable }
{
    let (a, v) = (u16::try_from(a)?, v.cast_unsigned());
    let body = RawBody::ConstWide { a, v };
    Ok(RawInsn { op: 0x19, body })
}

#[tactic(auto, unfolding(pi_insn::specs::Table::row_of))]
fn const_string(a: i64, s: i64) -> Result<RawInsn, Fault>
    ensures { IfOk result IsInTable }
{
    let (a, s) = (u16::try_from(a)?, u32::try_from(s)?);
    let body = RawBody::ConstString { a, s };
    Ok(RawInsn { op: 0x1a, body })
}

#[tactic(auto, unfolding(pi_insn::specs::Table::row_of))]
fn array_length(a: i64, b: i64) -> Result<RawInsn, Fault>
    ensures { IfOk result IsInTable }
{
    let (a, b) = (u16::try_from(a)?, u16::try_from(b)?);
    let body = RawBody::ArrayLength { a, b };
    Ok(RawInsn { op: 0x21, body })
}

#[tactic(auto, unfolding(pi_insn::specs::Table::row_of))]
fn throw(a: i64) -> Result<RawInsn, Fault>
    ensures { IfOk result IsInTable }
{
    let a = u16::try_from(a)?;
    let body = RawBody::Throw { a };
    Ok(RawInsn { op: 0x27, body })
}

#[tactic(auto, unfolding(pi_insn::specs::Table::row_of))]
fn goto(dist: i64) -> Result<RawInsn, Fault>
    ensures { IfOk result IsInTable }
{
    let dist = i32::try_from(dist)?;
    let body = RawBody::Goto { dist };
    Ok(RawInsn { op: 0x28, body })
}

#[tactic(auto, unfolding(pi_insn::specs::Table::row_of))]
fn if_eqz(a: i64, dist: i64) -> Result<RawInsn, Fault>
    ensures { IfOk result IsInTable }
{
    let (cond, a, dist) = (Cond::Eq, u16::try_from(a)?, i32::try_from(dist)?);
    let body = RawBody::IfZ { cond, a, dist };
    Ok(RawInsn { op: 0x38, body })
}

#[tactic(auto, unfolding(pi_insn::specs::Table::row_of))]
fn add_int(a: i64, b: i64, c: i64) -> Result<RawInsn, Fault>
    ensures { IfOk result IsInTable }
{
    let (a, b, c) = (u16::try_from(a)?, u16::try_from(b)?, u16::try_from(c)?);
    let op = Arith::Int(BinOp::Add);
    let body = RawBody::Binary { op, a, b, c };
    Ok(RawInsn { op: 0xb0, body })
}

/// With one register.
#[tactic(auto, unfolding(pi_insn::specs::Table::row_of))]
fn filled(t: i64, c: i64) -> Result<RawInsn, Fault>
    ensures { IfOk result IsInTable }
{
    let (t, c) = (u32::try_from(t)?, u16::try_from(c)?);
    let (n, regs) = (1, [c, 0, 0, 0, 0]);
    let regs = RawRegs::Few { n, regs };
    let body = RawBody::Filled { t, regs };
    Ok(RawInsn { op: 0x24, body })
}

#[tactic(auto, unfolding(pi_insn::specs::Table::row_of))]
fn filled_range(t: i64, first: i64, n: i64) -> Result<RawInsn, Fault>
    ensures { IfOk result IsInTable }
{
    let (t, first, n) = (u32::try_from(t)?, u16::try_from(first)?, u8::try_from(n)?);
    let regs = RawRegs::Run { first, n };
    let body = RawBody::Filled { t, regs };
    Ok(RawInsn { op: 0x25, body })
}
