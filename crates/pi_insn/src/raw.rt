// An instruction as a file has it: the opcode, and the operands with the file's indices and with distances.

use pi_model::insn::{Access, Arith, BinOp, Cond, How, Kind, UnOp};
use thiserror::Error;

/// An instruction: its opcode and its operands.
#[derive(Debug, Drop)]
pub struct RawInsn {
    pub op: u8,
    pub body: RawBody,
}

/// The operands, with what the opcode says beside its format. A register is a u16; `s`, `t`, `f` and `m` are indices
/// of the file's strings, types, fields and methods; `dist` is the distance in units from the instruction to its
/// target or payload; `v` is the literal modulo the range of its type.
#[derive(Debug, Drop)]
pub enum RawBody {
    Nop,
    Move {
        kind: Kind,
        a: u16,
        b: u16,
    },
    MoveResult {
        k: Kind,
        a: u16,
    },
    MoveException {
        a: u16,
    },
    ReturnVoid,
    Return {
        k: Kind,
        a: u16,
    },
    Const {
        a: u16,
        v: u32,
    },
    ConstWide {
        a: u16,
        v: u64,
    },
    ConstString {
        a: u16,
        s: u32,
    },
    ConstClass {
        a: u16,
        t: u32,
    },
    Monitor {
        a: u16,
    },
    CheckCast {
        a: u16,
        t: u32,
    },
    InstanceOf {
        a: u16,
        b: u16,
        t: u32,
    },
    ArrayLength {
        a: u16,
        b: u16,
    },
    NewInstance {
        a: u16,
        t: u32,
    },
    NewArray {
        a: u16,
        b: u16,
        t: u32,
    },
    Filled {
        t: u32,
        regs: RawRegs,
    },
    FillArray {
        a: u16,
        dist: i32,
    },
    Throw {
        a: u16,
    },
    Goto {
        dist: i32,
    },
    Switch {
        a: u16,
        dist: i32,
    },
    CmpLong {
        a: u16,
        b: u16,
        c: u16,
    },
    If {
        cond: Cond,
        a: u16,
        b: u16,
        dist: i32,
    },
    IfZ {
        cond: Cond,
        a: u16,
        dist: i32,
    },
    Aget {
        kind: Access,
        a: u16,
        b: u16,
        c: u16,
    },
    Aput {
        kind: Access,
        a: u16,
        b: u16,
        c: u16,
    },
    Iget {
        kind: Access,
        a: u16,
        b: u16,
        f: u32,
    },
    Iput {
        kind: Access,
        a: u16,
        b: u16,
        f: u32,
    },
    Sget {
        kind: Access,
        a: u16,
        f: u32,
    },
    Sput {
        kind: Access,
        a: u16,
        f: u32,
    },
    Invoke {
        how: How,
        m: u32,
        regs: RawRegs,
    },
    Unary {
        op: UnOp,
        a: u16,
        b: u16,
    },
    Binary {
        op: Arith,
        a: u16,
        b: u16,
        c: u16,
    },
    BinaryLit {
        op: BinOp,
        a: u16,
        b: u16,
        v: u32,
    },
}

/// The registers of an instruction that names several: at most five in any order, with 0 in the places from `n` on;
/// or `n` in a row.
#[derive(Clone, Copy, Debug)]
pub enum RawRegs {
    Few { n: u8, regs: [u16; 5] },
    Run { first: u16, n: u8 },
}

/// Why no instruction was read: there is none of this opcode and high byte, or units are wanting.
#[derive(Clone, Copy, Debug, PartialEq, Eq, Error)]
pub enum InsnError {
    #[error("not a supported instruction")]
    Unsupported(u8),
    #[error("the instruction is cut off")]
    Cut,
}
