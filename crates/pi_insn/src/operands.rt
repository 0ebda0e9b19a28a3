// The operands of an instruction, where it is one of those that a format has.

ghost use Rattle.std.specs.Prelude.{◌≡◌, ◌≤◌, ◌^◌};
ghost use Rattle.pi_insn.specs.Numbers.{bits, exact_quotient, short_bits};
ghost use Rattle.pi_insn.specs.Writing.{single_of, pair_of, triple_of, literal_of, high_of, named_of, named_pair_of, payload_of, goto_of, test_of, compare_of, with_literal_of, listing_of};

use crate::packed::{bits, shortened_int, shortened_long};
use crate::raw::{RawBody, RawRegs};

pub fn single_of(body: &RawBody) -> Option<u16>
    ensures { result ≡ single_of body.now }
{
    match body {
        RawBody::MoveResult { a, .. }
        | RawBody::MoveException { a }
        | RawBody::Return { a, .. }
        | RawBody::Monitor { a }
        | RawBody::Throw { a } => Some(*a),
        _ => None,
    }
}

/// A binary operation has two registers where the first is also an operand.
pub fn pair_of(body: &RawBody) -> Option<(u16, u16)>
    ensures { result ≡ pair_of body.now }
{
    match body {
        RawBody::Move { a, b, .. } | RawBody::ArrayLength { a, b } | RawBody::Unary { a, b, .. } =>
            Some((*a, *b)),
        RawBody::Binary { a, b, c, .. } if *a == *b => Some((*a, *c)),
        _ => None,
    }
}

pub fn triple_of(body: &RawBody) -> Option<(u16, u16, u16)>
    ensures { result ≡ triple_of body.now }
{
    match body {
        RawBody::CmpLong { a, b, c }
        | RawBody::Aget { a, b, c, .. }
        | RawBody::Aput { a, b, c, .. }
        | RawBody::Binary { a, b, c, .. } => Some((*a, *b, *c)),
        _ => None,
    }
}

/// The bits of a constant, which are extended by their sign; `half` is half of their range.
pub fn literal_of(half: u32, body: &RawBody) -> Option<(u16, u32)>
    requires some { 1 ≤ half }
    requires half { half ≤ 2 ^ 31 }
    ensures { result ≡ literal_of half body.now }
{
    match body {
        RawBody::Const { a, v } => {
            let n = shortened_int(half, *v)?;
            Some((*a, n))
        }
        RawBody::ConstWide { a, v } => {
            let n = shortened_long(half as u64, *v)?;
            Some((*a, n as u32))
        }
        _ => None,
    }
}

/// The top unit of a constant that has no more.
pub fn high_of(body: &RawBody) -> Option<(u16, u16)>
    ensures { result ≡ high_of body.now }
{
    match body {
        RawBody::Const { a, v } if *v % (1 << 16) == 0 => Some((*a, (*v / (1 << 16)) as u16)),
        RawBody::ConstWide { a, v } if *v % (1 << 48) == 0 => Some((*a, (*v / (1 << 48)) as u16)),
        _ => None,
    }
}

pub fn named_of(body: &RawBody) -> Option<(u16, u32)>
    ensures { result ≡ named_of body.now }
{
    match body {
        RawBody::ConstString { a, s } => Some((*a, *s)),
        RawBody::ConstClass { a, t }
        | RawBody::CheckCast { a, t }
        | RawBody::NewInstance { a, t } => Some((*a, *t)),
        RawBody::Sget { a, f, .. } | RawBody::Sput { a, f, .. } => Some((*a, *f)),
        _ => None,
    }
}

pub fn named_pair_of(body: &RawBody) -> Option<(u16, u16, u32)>
    ensures { result ≡ named_pair_of body.now }
{
    match body {
        RawBody::InstanceOf { a, b, t } | RawBody::NewArray { a, b, t } => Some((*a, *b, *t)),
        RawBody::Iget { a, b, f, .. } | RawBody::Iput { a, b, f, .. } => Some((*a, *b, *f)),
        _ => None,
    }
}

/// The bits of the distance; `half` is half of their range.
pub fn payload_of(half: u32, body: &RawBody) -> Option<(u16, u32)>
    requires { half ≤ 2 ^ 31 }
    ensures { result ≡ payload_of half body.now }
{
    match body {
        RawBody::FillArray { a, dist } | RawBody::Switch { a, dist } => {
            let n = bits(half, *dist)?;
            Some((*a, n))
        }
        _ => None,
    }
}

pub fn goto_of(half: u32, body: &RawBody) -> Option<u32>
    requires { half ≤ 2 ^ 31 }
    ensures { result ≡ goto_of half body.now }
{
    match body {
        RawBody::Goto { dist } => bits(half, *dist),
        _ => None,
    }
}

pub fn test_of(half: u32, body: &RawBody) -> Option<(u16, u32)>
    requires { half ≤ 2 ^ 31 }
    ensures { result ≡ test_of half body.now }
{
    match body {
        RawBody::IfZ { a, dist, .. } => {
            let n = bits(half, *dist)?;
            Some((*a, n))
        }
        _ => None,
    }
}

pub fn compare_of(half: u32, body: &RawBody) -> Option<(u16, u16, u32)>
    requires { half ≤ 2 ^ 31 }
    ensures { result ≡ compare_of half body.now }
{
    match body {
        RawBody::If { a, b, dist, .. } => {
            let n = bits(half, *dist)?;
            Some((*a, *b, n))
        }
        _ => None,
    }
}

/// The literal's bits, which are extended by their sign; `half` is half of their range.
pub fn with_literal_of(half: u32, body: &RawBody) -> Option<(u16, u16, u32)>
    requires some { 1 ≤ half }
    requires half { half ≤ 2 ^ 31 }
    ensures { result ≡ with_literal_of half body.now }
{
    match body {
        RawBody::BinaryLit { a, b, v, .. } => {
            let n = shortened_int(half, *v)?;
            Some((*a, *b, n))
        }
        _ => None,
    }
}

pub fn listing_of(body: &RawBody) -> Option<(u32, RawRegs)>
    ensures { result ≡ listing_of body.now }
{
    match body {
        RawBody::Filled { t, regs } => Some((*t, *regs)),
        RawBody::Invoke { m, regs, .. } => Some((*m, *regs)),
        _ => None,
    }
}
