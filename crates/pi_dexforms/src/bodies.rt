// The operands that a file can give an instruction.

ghost use Rattle.std.specs.Prelude.{◌≡◌, [], ◌∷◌, map};
ghost use Rattle.std.specs.Option.{option_to_list};
ghost use Rattle.pi_insn.specs.Writing.{NamesFew};
ghost use Rattle.pi_classtables.specs.Forms.{as_registers, distance, raw_bodies};
ghost use Rattle.pi_dexforms.specs.Held.{StandFor};

use crate::place::Place;
use crate::registers::{few, run};
use pi_insn::{RawBody, RawRegs};
use pi_model::insn::{Access, Cond, How, Insn, Regs};

/// The operands that a file can give an instruction: those that are tried first, and others.
#[derive(Drop)]
pub struct Bodies {
    pub first: Option<RawBody>,
    pub second: Option<RawBody>,
}

/// How far an address is from another, as a signed number of 32 bits.
fn distance(at: u32, to: u32) -> i32
    ensures { result ≡ distance at to }
{
    let bits = to.wrapping_sub(at);
    if bits < 1 << 31 {
        bits as i32
    } else {
        (bits as i64 - (1 << 32)) as i32
    }
}

/// Operands that a file can give in one way alone.
fn alone(body: RawBody) -> Bodies
    requires { NamesFew body }
    ensures { StandFor result (body ∷ []) }
{
    Bodies {
        first: Some(body),
        second: None,
    }
}

/// The operands of an array of given items with such registers.
fn filled_with(index: u32, regs: Option<RawRegs>) -> Option<RawBody>
    ensures { option_to_list result ≡ map (λ rs. RawBody.Filled index rs) (option_to_list regs) }
{
    regs.map(|regs| RawBody::Filled { t: index, regs })
}

/// The operands of a call with such registers.
fn invoke_with(how: How, index: u32, regs: Option<RawRegs>) -> Option<RawBody>
    ensures { option_to_list result ≡ map (λ rs. RawBody.Invoke how index rs) (option_to_list regs) }
{
    regs.map(|regs| RawBody::Invoke {
        how,
        m: index,
        regs,
    })
}

/// The operands of an array of given items.
fn filled(index: u32, regs: &Regs) -> Bodies
    ensures { StandFor result (map (λ rs. RawBody.Filled index rs) (as_registers regs.now)) }
{
    Bodies {
        first: filled_with(index, few(regs)),
        second: filled_with(index, run(regs)),
    }
}

/// The operands of a call.
fn invoke(how: How, index: u32, regs: &Regs) -> Bodies
    ensures { StandFor result (map (λ rs. RawBody.Invoke how index rs) (as_registers regs.now)) }
{
    Bodies {
        first: invoke_with(how, index, few(regs)),
        second: invoke_with(how, index, run(regs)),
    }
}

/// The operands of a jump to an address.
fn goto(at: u32, to: u32) -> Bodies
    ensures { StandFor result (RawBody.Goto (distance at to) ∷ []) }
{
    alone(RawBody::Goto {
        dist: distance(at, to),
    })
}

/// The operands of a jump where two registers compare so.
fn compare(cond: Cond, a: u16, b: u16, at: u32, to: u32) -> Bodies
    ensures { StandFor result (RawBody.If cond a b (distance at to) ∷ []) }
{
    let dist = distance(at, to);
    alone(RawBody::If { cond, a, b, dist })
}

/// The operands of a jump where a register compares so with 0.
fn test(cond: Cond, a: u16, at: u32, to: u32) -> Bodies
    ensures { StandFor result (RawBody.IfZ cond a (distance at to) ∷ []) }
{
    let dist = distance(at, to);
    alone(RawBody::IfZ { cond, a, dist })
}

/// The operands of an array's fill with data.
fn fill_array(a: u16, at: u32, payload: u32) -> Bodies
    ensures { StandFor result (RawBody.FillArray a (distance at payload) ∷ []) }
{
    let dist = distance(at, payload);
    alone(RawBody::FillArray { a, dist })
}

/// The operands of a switch.
fn switch(a: u16, at: u32, payload: u32) -> Bodies
    ensures { StandFor result (RawBody.Switch a (distance at payload) ∷ []) }
{
    let dist = distance(at, payload);
    alone(RawBody::Switch { a, dist })
}

/// The operands of a read of an instance field.
fn iget(kind: Access, a: u16, b: u16, index: u32) -> Bodies
    ensures { StandFor result (RawBody.Iget kind a b index ∷ []) }
{
    alone(RawBody::Iget {
        kind,
        a,
        b,
        f: index,
    })
}

/// The operands of a write to an instance field.
fn iput(kind: Access, a: u16, b: u16, index: u32) -> Bodies
    ensures { StandFor result (RawBody.Iput kind a b index ∷ []) }
{
    alone(RawBody::Iput {
        kind,
        a,
        b,
        f: index,
    })
}

/// The operands of an instruction at a place.
#[tactic(auto, unfolding(pi_classtables::specs::Forms::raw_bodies))]
pub fn operands(place: &Place, insn: &Insn) -> Bodies
    ensures { StandFor result (raw_bodies place.now.index place.now.at place.now.payload insn.now) }
{
    let index = place.index;
    let at = place.at;
    match *insn {
        Insn::Nop => alone(RawBody::Nop),
        Insn::Move { kind, a, b } => alone(RawBody::Move { kind, a, b }),
        Insn::MoveResult { k, a } => alone(RawBody::MoveResult { k, a }),
        Insn::MoveException { a } => alone(RawBody::MoveException { a }),
        Insn::ReturnVoid => alone(RawBody::ReturnVoid),
        Insn::Return { k, a } => alone(RawBody::Return { k, a }),
        Insn::Const { a, v } => alone(RawBody::Const { a, v }),
        Insn::ConstWide { a, v } => alone(RawBody::ConstWide { a, v }),
        Insn::ConstString { a, .. } => alone(RawBody::ConstString { a, s: index }),
        Insn::ConstClass { a, .. } => alone(RawBody::ConstClass { a, t: index }),
        Insn::Monitor { a } => alone(RawBody::Monitor { a }),
        Insn::CheckCast { a, .. } => alone(RawBody::CheckCast { a, t: index }),
        Insn::InstanceOf { a, b, .. } => alone(RawBody::InstanceOf { a, b, t: index }),
        Insn::ArrayLength { a, b } => alone(RawBody::ArrayLength { a, b }),
        Insn::NewInstance { a, .. } => alone(RawBody::NewInstance { a, t: index }),
        Insn::NewArray { a, b, .. } => alone(RawBody::NewArray { a, b, t: index }),
        Insn::Filled { ref regs, .. } => filled(index, regs),
        Insn::FillArray { a, .. } => fill_array(a, at, place.payload),
        Insn::Throw { a } => alone(RawBody::Throw { a }),
        Insn::Goto { to } => goto(at, to),
        Insn::Switch { a, .. } => switch(a, at, place.payload),
        Insn::CmpLong { a, b, c } => alone(RawBody::CmpLong { a, b, c }),
        Insn::If { cond, a, b, to } => compare(cond, a, b, at, to),
        Insn::IfZ { cond, a, to } => test(cond, a, at, to),
        Insn::Aget { kind, a, b, c } => alone(RawBody::Aget { kind, a, b, c }),
        Insn::Aput { kind, a, b, c } => alone(RawBody::Aput { kind, a, b, c }),
        Insn::Iget { kind, a, b, .. } => iget(kind, a, b, index),
        Insn::Iput { kind, a, b, .. } => iput(kind, a, b, index),
        Insn::Sget { kind, a, .. } => alone(RawBody::Sget { kind, a, f: index }),
        Insn::Sput { kind, a, .. } => alone(RawBody::Sput { kind, a, f: index }),
        Insn::Invoke { how, ref regs, .. } => invoke(how, index, regs),
        Insn::Unary { op, a, b } => alone(RawBody::Unary { op, a, b }),
        Insn::Binary { op, a, b, c } => alone(RawBody::Binary { op, a, b, c }),
        Insn::BinaryLit { op, a, b, v } => alone(RawBody::BinaryLit { op, a, b, v }),
    }
}
