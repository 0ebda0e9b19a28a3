// The opcodes of an instruction, in the order in which they are tried.

ghost use Rattle.std.specs.Prelude.{◌≡◌, ◌≤◌, ◌+◌, ◌*◌, ◌<◌, [], ◌∷◌, IfSome};
ghost use Rattle.pi_classtables.specs.Forms.{kind_place, access_place, cond_place, how_place, operation_place, literal_opcodes, unary_opcode, operation_opcodes, binary_opcodes, listing_opcode, opcodes_of};
ghost use Rattle.pi_dexforms.specs.Held.{list_of};

use pi_insn::{RawBody, RawRegs};
use pi_model::insn::{Access, Arith, BinOp, Cond, How, Kind, UnOp};

/// The opcodes of an instruction in order.
#[derive(Clone, Copy, Debug)]
pub enum Opcodes {
    Absent,
    One([u8; 1]),
    Two([u8; 2]),
    Three([u8; 3]),
    Four([u8; 4]),
}

impl Opcodes {
    /// The opcodes as a slice.
    pub fn as_slice(&self) -> &[u8]
        ensures { result.now ≡ list_of self.now }
    {
        match self {
            Opcodes::Absent => &[],
            Opcodes::One(opcodes) => opcodes,
            Opcodes::Two(opcodes) => opcodes,
            Opcodes::Three(opcodes) => opcodes,
            Opcodes::Four(opcodes) => opcodes,
        }
    }
}

/// One opcode alone.
fn one(opcode: u8) -> Opcodes
    ensures { list_of result ≡ opcode ∷ [] }
{
    Opcodes::One([opcode])
}

fn two(first: u8, second: u8) -> Opcodes
    ensures { list_of result ≡ first ∷ second ∷ [] }
{
    Opcodes::Two([first, second])
}

fn four(first: u8, second: u8, third: u8, fourth: u8) -> Opcodes
    ensures { list_of result ≡ first ∷ second ∷ third ∷ fourth ∷ [] }
{
    Opcodes::Four([first, second, third, fourth])
}

fn kind_place(kind: Kind) -> u8
    ensures value { result ≡ kind_place kind }
    ensures small { result ≤ 2 }
{
    match kind {
        Kind::Word => 0,
        Kind::Wide => 1,
        Kind::Ref => 2,
    }
}

fn access_place(kind: Access) -> u8
    ensures value { result ≡ access_place kind }
    ensures small { result ≤ 6 }
{
    match kind {
        Access::Plain => 0,
        Access::Wide => 1,
        Access::Ref => 2,
        Access::Bool => 3,
        Access::Byte => 4,
        Access::Char => 5,
        Access::Short => 6,
    }
}

fn cond_place(cond: Cond) -> u8
    ensures value { result ≡ cond_place cond }
    ensures small { result ≤ 5 }
{
    match cond {
        Cond::Eq => 0,
        Cond::Ne => 1,
        Cond::Lt => 2,
        Cond::Ge => 3,
        Cond::Gt => 4,
        Cond::Le => 5,
    }
}

fn how_place(how: How) -> u8
    ensures value { result ≡ how_place how }
    ensures small { result ≤ 4 }
{
    match how {
        How::Virtual => 0,
        How::Super => 1,
        How::Direct => 2,
        How::Static => 3,
        How::Interface => 4,
    }
}

/// The opcode of an operation on one operand.
fn unary_opcode(op: UnOp) -> u8
    ensures { result ≡ unary_opcode op }
{
    match op {
        UnOp::NegInt => 0x7b,
        UnOp::NotInt => 0x7c,
        UnOp::NegLong => 0x7d,
        UnOp::NotLong => 0x7e,
        UnOp::IntToLong => 0x81,
        UnOp::LongToInt => 0x84,
        UnOp::IntToByte => 0x8d,
        UnOp::IntToChar => 0x8e,
        UnOp::IntToShort => 0x8f,
    }
}

fn operation_place(op: BinOp) -> Option<u8>
    ensures value { result ≡ operation_place op }
    ensures small { IfSome result (λ place. place ≤ 10) }
{
    match op {
        BinOp::Add => Some(0),
        BinOp::Sub => Some(1),
        BinOp::Rsub => None,
        BinOp::Mul => Some(2),
        BinOp::Div => Some(3),
        BinOp::Rem => Some(4),
        BinOp::And => Some(5),
        BinOp::Or => Some(6),
        BinOp::Xor => Some(7),
        BinOp::Shl => Some(8),
        BinOp::Shr => Some(9),
        BinOp::Ushr => Some(10),
    }
}

/// The opcode in which the first register is also an operand, then that with three registers.
fn operation_opcodes(three: u8, two: u8, op: BinOp) -> Opcodes
    requires three { three + 10 < 256 }
    requires two { two + 10 < 256 }
    ensures { list_of result ≡ operation_opcodes three two (operation_place op) }
{
    match operation_place(op) {
        None => Opcodes::Absent,
        Some(place) => Opcodes::Two([two + place, three + place]),
    }
}

fn binary_opcodes(op: Arith) -> Opcodes
    ensures { list_of result ≡ binary_opcodes op }
{
    match op {
        Arith::Int(op) => operation_opcodes(0x90, 0xb0, op),
        Arith::Long(op) => operation_opcodes(0x9b, 0xbb, op),
    }
}

/// With a literal of 16 bits, then with one of 8 bits.
fn literal_opcodes(op: BinOp) -> Opcodes
    ensures { list_of result ≡ literal_opcodes op }
{
    match op {
        BinOp::Add => two(0xd0, 0xd8),
        BinOp::Sub => Opcodes::Absent,
        BinOp::Rsub => two(0xd1, 0xd9),
        BinOp::Mul => two(0xd2, 0xda),
        BinOp::Div => two(0xd3, 0xdb),
        BinOp::Rem => two(0xd4, 0xdc),
        BinOp::And => two(0xd5, 0xdd),
        BinOp::Or => two(0xd6, 0xde),
        BinOp::Xor => two(0xd7, 0xdf),
        BinOp::Shl => one(0xe0),
        BinOp::Shr => one(0xe1),
        BinOp::Ushr => one(0xe2),
    }
}

fn listing_opcode(few: u8, run: u8, regs: &RawRegs) -> Opcodes
    ensures { list_of result ≡ listing_opcode few run regs.now }
{
    match regs {
        RawRegs::Few { .. } => one(few),
        RawRegs::Run { .. } => one(run),
    }
}

fn move_opcodes(kind: Kind) -> Opcodes
    ensures { list_of result ≡ (3 * kind_place kind + 1) ∷ (3 * kind_place kind + 2) ∷ (3 * kind_place kind + 3) ∷ [] }
{
    let place = 3 * kind_place(kind);
    Opcodes::Three([place + 1, place + 2, place + 3])
}

/// The opcodes of an instruction with such operands; a switch says whether its payload is sparse.
#[tactic(auto, unfolding(pi_classtables::specs::Forms::opcodes_of))]
pub fn opcodes_of(sparse: bool, body: &RawBody) -> Opcodes
    ensures { list_of result ≡ opcodes_of sparse body.now }
{
    match body {
        RawBody::Nop => one(0x00),
        RawBody::Move { kind, .. } => move_opcodes(*kind),
        RawBody::MoveResult { k, .. } => one(0x0a + kind_place(*k)),
        RawBody::MoveException { .. } => one(0x0d),
        RawBody::ReturnVoid => one(0x0e),
        RawBody::Return { k, .. } => one(0x0f + kind_place(*k)),
        RawBody::Const { .. } => four(0x12, 0x13, 0x15, 0x14),
        RawBody::ConstWide { .. } => four(0x16, 0x19, 0x17, 0x18),
        RawBody::ConstString { .. } => two(0x1a, 0x1b),
        RawBody::ConstClass { .. } => one(0x1c),
        RawBody::Monitor { .. } => one(0x1d),
        RawBody::CheckCast { .. } => one(0x1f),
        RawBody::InstanceOf { .. } => one(0x20),
        RawBody::ArrayLength { .. } => one(0x21),
        RawBody::NewInstance { .. } => one(0x22),
        RawBody::NewArray { .. } => one(0x23),
        RawBody::Filled { regs, .. } => listing_opcode(0x24, 0x25, regs),
        RawBody::FillArray { .. } => one(0x26),
        RawBody::Throw { .. } => one(0x27),
        RawBody::Goto { .. } => Opcodes::Three([0x28, 0x29, 0x2a]),
        RawBody::Switch { .. } => one(if sparse { 0x2c } else { 0x2b }),
        RawBody::CmpLong { .. } => one(0x31),
        RawBody::If { cond, .. } => one(0x32 + cond_place(*cond)),
        RawBody::IfZ { cond, .. } => one(0x38 + cond_place(*cond)),
        RawBody::Aget { kind, .. } => one(0x44 + access_place(*kind)),
        RawBody::Aput { kind, .. } => one(0x4b + access_place(*kind)),
        RawBody::Iget { kind, .. } => one(0x52 + access_place(*kind)),
        RawBody::Iput { kind, .. } => one(0x59 + access_place(*kind)),
        RawBody::Sget { kind, .. } => one(0x60 + access_place(*kind)),
        RawBody::Sput { kind, .. } => one(0x67 + access_place(*kind)),
        RawBody::Invoke { how, regs, .. } => listing_opcode(
            0x6e + how_place(*how),
            0x74 + how_place(*how),
            regs,
        ),
        RawBody::Unary { op, .. } => one(unary_opcode(*op)),
        RawBody::Binary { op, .. } => binary_opcodes(*op),
        RawBody::BinaryLit { op, .. } => literal_opcodes(*op),
    }
}
