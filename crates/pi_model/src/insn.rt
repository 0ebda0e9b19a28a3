// The instructions, with names in place of a file's indices. A register is a u16; `to` is the address of a target;
// a literal is its value modulo the range of its type. docs/program.md lists which opcodes each variant stands for.

use crate::listed::{Listed, Names};
use crate::numbers::NameNo;
pub use crate::regs::Regs;

/// An instruction of the Dalvik bytecode, without floating point, call sites and method handles.
#[derive(Debug, Drop)]
pub enum Insn {
    Nop,
    Move {
        kind: Kind,
        a: u16,
        b: u16,
    },
    MoveResult {
        k: Kind,
        a: u16,
    },
    MoveException {
        a: u16,
    },
    ReturnVoid,
    Return {
        k: Kind,
        a: u16,
    },
    Const {
        a: u16,
        v: u32,
    },
    ConstWide {
        a: u16,
        v: u64,
    },
    ConstString {
        a: u16,
        s: NameNo,
    },
    ConstClass {
        a: u16,
        t: NameNo,
    },
    Monitor {
        a: u16,
    },
    CheckCast {
        a: u16,
        t: NameNo,
    },
    InstanceOf {
        a: u16,
        b: u16,
        t: NameNo,
    },
    ArrayLength {
        a: u16,
        b: u16,
    },
    NewInstance {
        a: u16,
        t: NameNo,
    },
    NewArray {
        a: u16,
        b: u16,
        t: NameNo,
    },
    Filled {
        t: NameNo,
        regs: Regs,
    },
    FillArray {
        a: u16,
        width: u16,
        items: Items,
    },
    Throw {
        a: u16,
    },
    Goto {
        to: u32,
    },
    Switch {
        a: u16,
        cases: Cases,
    },
    CmpLong {
        a: u16,
        b: u16,
        c: u16,
    },
    If {
        cond: Cond,
        a: u16,
        b: u16,
        to: u32,
    },
    IfZ {
        cond: Cond,
        a: u16,
        to: u32,
    },
    Aget {
        kind: Access,
        a: u16,
        b: u16,
        c: u16,
    },
    Aput {
        kind: Access,
        a: u16,
        b: u16,
        c: u16,
    },
    Iget {
        kind: Access,
        a: u16,
        b: u16,
        f: FieldRef,
    },
    Iput {
        kind: Access,
        a: u16,
        b: u16,
        f: FieldRef,
    },
    Sget {
        kind: Access,
        a: u16,
        f: FieldRef,
    },
    Sput {
        kind: Access,
        a: u16,
        f: FieldRef,
    },
    Invoke {
        how: How,
        m: MethodRef,
        regs: Regs,
    },
    Unary {
        op: UnOp,
        a: u16,
        b: u16,
    },
    Binary {
        op: Arith,
        a: u16,
        b: u16,
        c: u16,
    },
    BinaryLit {
        op: BinOp,
        a: u16,
        b: u16,
        v: u32,
    },
}

/// What a register move, result or return carries: a word, a long in two registers, or a reference.
#[derive(Clone, Copy, Debug, PartialEq, Eq)]
pub enum Kind {
    Word,
    Wide,
    Ref,
}

/// What a field or an array access carries, and how wide it is kept.
#[derive(Clone, Copy, Debug, PartialEq, Eq)]
pub enum Access {
    Plain,
    Wide,
    Ref,
    Bool,
    Byte,
    Char,
    Short,
}

/// The condition of a branch.
#[derive(Clone, Copy, Debug, PartialEq, Eq)]
pub enum Cond {
    Eq,
    Ne,
    Lt,
    Ge,
    Gt,
    Le,
}

/// How a method is called.
#[derive(Clone, Copy, Debug, PartialEq, Eq)]
pub enum How {
    Virtual,
    Super,
    Direct,
    Static,
    Interface,
}

/// A binary operation on ints or on longs.
#[derive(Clone, Copy, Debug, PartialEq, Eq)]
pub enum Arith {
    Int(BinOp),
    Long(BinOp),
}

/// A binary operation; `Rsub` is the second operand minus the first.
#[derive(Clone, Copy, Debug, PartialEq, Eq)]
pub enum BinOp {
    Add,
    Sub,
    Rsub,
    Mul,
    Div,
    Rem,
    And,
    Or,
    Xor,
    Shl,
    Shr,
    Ushr,
}

/// An operation on one operand.
#[derive(Clone, Copy, Debug, PartialEq, Eq)]
pub enum UnOp {
    NegInt,
    NotInt,
    NegLong,
    NotLong,
    IntToLong,
    LongToInt,
    IntToByte,
    IntToChar,
    IntToShort,
}

/// A field as an instruction names it.
#[derive(Clone, Copy, Debug, PartialEq, Eq)]
pub struct FieldRef {
    pub class: NameNo,
    pub name: NameNo,
    pub ty: NameNo,
}

/// A method as an instruction names it.
#[derive(Debug, Drop)]
pub struct MethodRef {
    pub class: NameNo,
    pub name: NameNo,
    pub params: Names,
    pub ret: NameNo,
}

/// One case of a switch, by its key as the 32 bits of a signed number.
#[derive(Clone, Copy, Debug, PartialEq, Eq)]
pub struct Case {
    pub key: u32,
    pub to: u32,
}

/// The cases of a switch in the order of the payload.
pub type Cases = Listed<Case>;

/// The items of an array's data, each the bytes of one item as an unsigned number.
pub type Items = Listed<u64>;
