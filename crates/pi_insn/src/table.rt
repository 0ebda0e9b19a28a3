// What a row of the table of opcodes says: the format, and which instruction it is.

ghost use Rattle.std.specs.Prelude.{◌≡◌, ◌≤◌};
ghost use Rattle.pi_insn.specs.Table.{row_of, units_of, refuses};

use crate::rows::ROWS;
use pi_model::insn::{Access, Arith, BinOp, Cond, How, Kind, UnOp};

/// An instruction without operands.
#[derive(Clone, Copy)]
pub enum Plain {
    Nop,
    ReturnVoid,
}

/// An instruction with one register.
#[derive(Clone, Copy)]
pub enum Single {
    MoveResult(Kind),
    MoveException,
    Return(Kind),
    Monitor,
    Throw,
}

/// An instruction with two registers. For `Binary` the first is also the first operand.
#[derive(Clone, Copy)]
pub enum Pair {
    Move(Kind),
    ArrayLength,
    Unary(UnOp),
    Binary(Arith),
}

/// An instruction with three registers.
#[derive(Clone, Copy)]
pub enum Triple {
    CmpLong,
    Aget(Access),
    Aput(Access),
    Binary(Arith),
}

/// How wide a constant is.
#[derive(Clone, Copy)]
pub enum Literal {
    Int,
    Long,
}

/// An instruction with one register and an index of the file.
#[derive(Clone, Copy)]
pub enum Named {
    ConstString,
    ConstClass,
    CheckCast,
    NewInstance,
    Sget(Access),
    Sput(Access),
}

/// An instruction with two registers and an index of the file.
#[derive(Clone, Copy)]
pub enum NamedPair {
    InstanceOf,
    NewArray,
    Iget(Access),
    Iput(Access),
}

/// An instruction with one register and the distance to a payload.
#[derive(Clone, Copy)]
pub enum Payloads {
    FillArray,
    Switch,
}

/// An instruction with an index of the file and several registers.
#[derive(Clone, Copy)]
pub enum Listing {
    Filled,
    Invoke(How),
}

/// A row of the table: the format, by its published name, and the instruction where the format has several.
#[derive(Clone, Copy)]
pub enum Row {
    F10x(Plain),
    F12x(Pair),
    F11n,
    F11x(Single),
    F10t,
    F20t,
    F22x(Kind),
    F21t(Cond),
    F21s(Literal),
    F21h(Literal),
    F21c(Named),
    F23x(Triple),
    F22b(BinOp),
    F22t(Cond),
    F22s(BinOp),
    F22c(NamedPair),
    F30t,
    F32x(Kind),
    F31i(Literal),
    F31t(Payloads),
    F31c,
    F35c(Listing),
    F3rc(Listing),
    F51l,
}

/// The row of an opcode, `None` where there is no such instruction.
#[tactic(auto, unfolding(crate::specs::Table::row_of))]
pub fn row_of(op: u8) -> Option<Row>
    ensures { result ≡ row_of op }
{
    ROWS[op as usize]
}

/// The length of an instruction in units of 16 bits.
pub fn units_of(row: Row) -> usize
    ensures value { result ≡ units_of row }
    ensures some { 1 ≤ result }
{
    match row {
        Row::F10x(_) | Row::F12x(_) | Row::F11n | Row::F11x(_) | Row::F10t => 1,
        Row::F20t
        | Row::F22x(_)
        | Row::F21t(_)
        | Row::F21s(_)
        | Row::F21h(_)
        | Row::F21c(_)
        | Row::F23x(_)
        | Row::F22b(_)
        | Row::F22t(_)
        | Row::F22s(_)
        | Row::F22c(_) => 2,
        Row::F30t
        | Row::F32x(_)
        | Row::F31i(_)
        | Row::F31t(_)
        | Row::F31c
        | Row::F35c(_)
        | Row::F3rc(_) => 3,
        Row::F51l => 5,
    }
}

/// Whether the format has no instruction with that high byte of the first unit: one that must be 0, or a number of
/// registers above five.
pub fn is_refused(row: Row, high: u8) -> bool
    ensures { result ≡ refuses row high }
{
    match row {
        Row::F10x(_) | Row::F20t | Row::F30t | Row::F32x(_) => high != 0,
        Row::F35c(_) => high / 16 > 5,
        _ => false,
    }
}
