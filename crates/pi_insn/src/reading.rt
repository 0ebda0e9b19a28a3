// The instruction at a place. One function for each layout of the operands; which of them it is, the row of the opcode
// says.

ghost use Rattle.std.specs.Prelude.{◌≡◌, ◌%◌, ◌/◌, ◌+◌, ◌*◌, ◌<◌, ◌≤◌, ◌^◌, length, IfOk};
ghost use Rattle.pi_insn.specs.Numbers.{signed_number, signed_extension};
ghost use Rattle.pi_insn.specs.Table.{row_of, units_of};
ghost use Rattle.pi_insn.specs.Writing.{IsInTable};
ghost use Rattle.pi_insn.specs.Reading.{plain_body, single_body, pair_body, triple_body, literal_body, high_body, named_body, named_pair_body, payload_body, listing_body, few, place, body_of, insn_where, insn_at};

use crate::numbers::{extended_int, extended_long, long, signed, word};
use crate::raw::{InsnError, RawBody, RawInsn, RawRegs};
use crate::table::{
    Listing, Literal, Named, NamedPair, Pair, Payloads, Plain, Row, Single, Triple, is_refused,
    row_of, units_of,
};
use pi_model::insn::{BinOp, Cond, Kind};

fn plain_body(what: Plain) -> RawBody
    ensures { result ≡ plain_body what }
{
    match what {
        Plain::Nop => RawBody::Nop,
        Plain::ReturnVoid => RawBody::ReturnVoid,
    }
}

fn single_body(what: Single, a: u16) -> RawBody
    ensures { result ≡ single_body what a }
{
    match what {
        Single::MoveResult(k) => RawBody::MoveResult { k, a },
        Single::MoveException => RawBody::MoveException { a },
        Single::Return(k) => RawBody::Return { k, a },
        Single::Monitor => RawBody::Monitor { a },
        Single::Throw => RawBody::Throw { a },
    }
}

fn pair_body(what: Pair, a: u16, b: u16) -> RawBody
    ensures { result ≡ pair_body what a b }
{
    match what {
        Pair::Move(kind) => RawBody::Move { kind, a, b },
        Pair::ArrayLength => RawBody::ArrayLength { a, b },
        Pair::Unary(op) => RawBody::Unary { op, a, b },
        Pair::Binary(op) => RawBody::Binary { op, a, b: a, c: b },
    }
}

fn triple_body(what: Triple, a: u16, b: u16, c: u16) -> RawBody
    ensures { result ≡ triple_body what a b c }
{
    match what {
        Triple::CmpLong => RawBody::CmpLong { a, b, c },
        Triple::Aget(kind) => RawBody::Aget { kind, a, b, c },
        Triple::Aput(kind) => RawBody::Aput { kind, a, b, c },
        Triple::Binary(op) => RawBody::Binary { op, a, b, c },
    }
}

fn literal_body(what: Literal, a: u16, half: u32, n: u32) -> RawBody
    requires half { half ≤ 2 ^ 31 }
    requires range { n < 2 * half }
    ensures { result ≡ literal_body what a half n }
{
    match what {
        Literal::Int => RawBody::Const {
            a,
            v: extended_int(half, n),
        },
        Literal::Long => RawBody::ConstWide {
            a,
            v: extended_long(half as u64, n as u64),
        },
    }
}

fn high_body(what: Literal, a: u16, n: u16) -> RawBody
    ensures { result ≡ high_body what a n }
{
    match what {
        Literal::Int => RawBody::Const {
            a,
            v: n as u32 * (1 << 16),
        },
        Literal::Long => RawBody::ConstWide {
            a,
            v: n as u64 * (1 << 48),
        },
    }
}

fn named_body(what: Named, a: u16, index: u32) -> RawBody
    ensures { result ≡ named_body what a index }
{
    match what {
        Named::ConstString => RawBody::ConstString { a, s: index },
        Named::ConstClass => RawBody::ConstClass { a, t: index },
        Named::CheckCast => RawBody::CheckCast { a, t: index },
        Named::NewInstance => RawBody::NewInstance { a, t: index },
        Named::Sget(kind) => RawBody::Sget { kind, a, f: index },
        Named::Sput(kind) => RawBody::Sput { kind, a, f: index },
    }
}

fn named_pair_body(what: NamedPair, a: u16, b: u16, index: u32) -> RawBody
    ensures { result ≡ named_pair_body what a b index }
{
    match what {
        NamedPair::InstanceOf => RawBody::InstanceOf { a, b, t: index },
        NamedPair::NewArray => RawBody::NewArray { a, b, t: index },
        NamedPair::Iget(kind) => RawBody::Iget {
            kind,
            a,
            b,
            f: index,
        },
        NamedPair::Iput(kind) => RawBody::Iput {
            kind,
            a,
            b,
            f: index,
        },
    }
}

fn payload_body(what: Payloads, a: u16, n: u32) -> RawBody
    ensures { result ≡ payload_body what a n }
{
    let dist = signed(1 << 31, n);
    match what {
        Payloads::FillArray => RawBody::FillArray { a, dist },
        Payloads::Switch => RawBody::Switch { a, dist },
    }
}

fn listing_body(what: Listing, index: u32, regs: RawRegs) -> RawBody
    ensures { result ≡ listing_body what index regs }
{
    match what {
        Listing::Filled => RawBody::Filled { t: index, regs },
        Listing::Invoke(how) => RawBody::Invoke {
            how,
            m: index,
            regs,
        },
    }
}

fn place(n: u8, i: u8, register: u16) -> u16
    ensures { result ≡ place n i register }
{
    if i < n { register } else { 0 }
}

fn few(high: u8, unit: u16) -> RawRegs
    ensures { result ≡ few high unit }
{
    let n = high / 16;
    RawRegs::Few {
        n,
        regs: [
            place(n, 0, unit % 16),
            place(n, 1, unit / 16 % 16),
            place(n, 2, unit / 256 % 16),
            place(n, 3, unit / 4096),
            place(n, 4, (high % 16) as u16),
        ],
    }
}

/// The distance of a branch that has one unit for it.
fn distance(unit: u16) -> i32
    ensures { result ≡ signed_number 32768 unit }
{
    signed(32768, unit as u32)
}

fn goto(dist: i32) -> RawBody
    ensures { result ≡ RawBody.Goto dist }
{
    RawBody::Goto { dist }
}

fn test(cond: Cond, a: u16, dist: i32) -> RawBody
    ensures { result ≡ RawBody.IfZ cond a dist }
{
    RawBody::IfZ { cond, a, dist }
}

fn compare(cond: Cond, a: u16, b: u16, dist: i32) -> RawBody
    ensures { result ≡ RawBody.If cond a b dist }
{
    RawBody::If { cond, a, b, dist }
}

fn moved(kind: Kind, a: u16, b: u16) -> RawBody
    ensures { result ≡ RawBody.Move kind a b }
{
    RawBody::Move { kind, a, b }
}

fn with_literal(op: BinOp, a: u16, b: u16, v: u32) -> RawBody
    ensures { result ≡ RawBody.BinaryLit op a b v }
{
    RawBody::BinaryLit { op, a, b, v }
}

fn literal_byte(op: BinOp, a: u16, unit: u16) -> RawBody
    ensures { result ≡ RawBody.BinaryLit op a (unit % 256) (signed_extension 128 (2 ^ 32) (unit / 256)) }
{
    RawBody::BinaryLit {
        op,
        a,
        b: unit % 256,
        v: extended_int(128, (unit / 256) as u32),
    }
}

fn wide(a: u16, v: u64) -> RawBody
    ensures { result ≡ RawBody.ConstWide a v }
{
    RawBody::ConstWide { a, v }
}

fn run(high: u8, first: u16) -> RawRegs
    ensures { result ≡ RawRegs.Run first high }
{
    RawRegs::Run { first, n: high }
}

/// The operands of a row's instruction, from the high byte of its first unit and the units behind that unit.
fn body_of(row: Row, high: u8, rest: &[u16]) -> RawBody
    requires { units_of row ≤ length rest.now + 1 }
    ensures { result ≡ body_of row high rest.now }
{
    let a = (high % 16) as u16;
    let b = (high / 16) as u16;
    let byte = high as u16;
    match row {
        Row::F10x(what) => plain_body(what),
        Row::F12x(what) => pair_body(what, a, b),
        Row::F11n => literal_body(Literal::Int, a, 8, b as u32),
        Row::F11x(what) => single_body(what, byte),
        Row::F10t => goto(signed(128, high as u32)),
        Row::F20t => goto(distance(rest[0])),
        Row::F22x(kind) => moved(kind, byte, rest[0]),
        Row::F21t(cond) => test(cond, byte, distance(rest[0])),
        Row::F21s(what) => literal_body(what, byte, 32768, rest[0] as u32),
        Row::F21h(what) => high_body(what, byte, rest[0]),
        Row::F21c(what) => named_body(what, byte, rest[0] as u32),
        Row::F23x(what) => triple_body(what, byte, rest[0] % 256, rest[0] / 256),
        Row::F22b(op) => literal_byte(op, byte, rest[0]),
        Row::F22t(cond) => compare(cond, a, b, distance(rest[0])),
        Row::F22s(op) => with_literal(op, a, b, extended_int(32768, rest[0] as u32)),
        Row::F22c(what) => named_pair_body(what, a, b, rest[0] as u32),
        Row::F30t => goto(signed(1 << 31, word(rest, 0))),
        Row::F32x(kind) => moved(kind, rest[0], rest[1]),
        Row::F31i(what) => literal_body(what, byte, 1 << 31, word(rest, 0)),
        Row::F31t(what) => payload_body(what, byte, word(rest, 0)),
        Row::F31c => named_body(Named::ConstString, byte, word(rest, 0)),
        Row::F35c(what) => listing_body(what, rest[0] as u32, few(high, rest[1])),
        Row::F3rc(what) => listing_body(what, rest[0] as u32, run(high, rest[1])),
        Row::F51l => wide(byte, long(rest)),
    }
}

/// The instruction of an opcode, and its length in units.
#[tactic(auto, unfolding(crate::specs::Reading::row_insn))]
fn read(op: u8, high: u8, rest: &[u16]) -> Result<(RawInsn, usize), InsnError>
    requires { length rest.now < 2 ^ 63 }
    ensures value { result ≡ insn_where op (row_of op) high rest.now }
    ensures inside { IfOk result (λ found. found.1 ≤ length rest.now + 1) }
    ensures some { IfOk result (λ found. 1 ≤ found.1) }
{
    let Some(row) = row_of(op) else {
        return Err(InsnError::Unsupported(op));
    };
    if is_refused(row, high) {
        return Err(InsnError::Unsupported(op));
    }
    let units = units_of(row);
    if rest.len() + 1 < units {
        return Err(InsnError::Cut);
    }
    let body = body_of(row, high, rest);
    Ok((RawInsn { op, body }, units))
}

/// The instruction at a place, and its length in units. `Unsupported`, with the low byte of the unit there, exactly
/// where that byte is no opcode, a byte that must be 0 is not, or more than five registers are named one by one; else
/// `Cut` exactly where units of it are wanting. What is read may be written. The formats are the published ones.
pub fn decode(units: &[u16], at: usize) -> Result<(RawInsn, usize), InsnError>
    requires { at < length units.now }
    ensures value { result ≡ insn_at units.now at }
    ensures inside { IfOk result (λ found. at + found.1 ≤ length units.now) }
    ensures some { IfOk result (λ found. 1 ≤ found.1) }
    ensures listed { IfOk result (λ found. IsInTable found.0) }
{
    let unit = units[at];
    let (_, rest) = units.split_at(at + 1);
    read((unit % 256) as u8, (unit / 256) as u8, rest)
}
