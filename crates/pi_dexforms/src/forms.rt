// The units of an instruction in the first form of its length that its operands fit.

ghost use Rattle.std.specs.Prelude.{◌≡◌, IfOk, All};
ghost use Rattle.std.specs.Option.{option_to_list};
ghost use Rattle.pi_insn.specs.Writing.{encoding, IsInTable, NamesFew};
ghost use Rattle.pi_classtables.specs.Forms.{of_length, first_opcode, first_form, raw_bodies};

use crate::bodies::operands;
use crate::opcode::opcodes_of;
use crate::place::Place;
use pi_insn::{EncodeError, RawBody, RawInsn, encode};
use pi_model::insn::Insn;
use pi_model::listed::Units;
use std::alloc::{AllocError, Global};

/// The units of an instruction, where they are so many and the operands fit.
fn of_length(alloc: Global, units: u32, insn: &RawInsn) -> Result<Option<Units>, AllocError>
    requires { IsInTable insn.now }
    ensures { IfOk result (λ form. form ≡ of_length units (encoding insn.now)) }
{
    match encode(alloc, insn) {
        Ok(form) if form.len() == units as usize => Ok(Some(form)),
        Ok(_) | Err(EncodeError::Range) => Ok(None),
        Err(EncodeError::OutOfMemory) => Err(AllocError),
    }
}

/// The units by the first opcode that has so many and that the operands fit.
fn first_opcode(
    alloc: Global,
    units: u32,
    body: RawBody,
    opcodes: &[u8],
) -> Result<Option<Units>, AllocError>
    requires { All (λ op. IsInTable (record { op = op; body = body })) opcodes.now }
    ensures { IfOk result (λ form. form ≡ first_opcode units body opcodes.now) }
{
    let mut insn = RawInsn { op: 0, body };
    for op in opcodes {
        insn.op = *op;
        if let Some(form) = of_length(alloc, units, &insn)? {
            return Ok(Some(form));
        }
    }
    Ok(None)
}

/// The units by operands, where there are such.
#[tactic(auto, using(crate::proofs::FormSteps::next_none))]
fn form_of(alloc: Global, place: &Place, body: Option<RawBody>) -> Result<Option<Units>, AllocError>
    requires { All NamesFew (option_to_list body) }
    ensures { IfOk result (λ form. form ≡ first_form place.now.units place.now.sparse (option_to_list body)) }
{
    let Some(body) = body else {
        return Ok(None);
    };
    let opcodes = opcodes_of(place.sparse, &body);
    first_opcode(alloc, place.units, body, opcodes.as_slice())
}

/// The units of an instruction at a place: those of the first opcode with so many units that its operands fit, registers
/// one by one before registers in a row; None where there is no such opcode.
#[tactic(auto, using(crate::proofs::FormSteps::form_of_both))]
pub fn form(alloc: Global, insn: &Insn, place: Place) -> Result<Option<Units>, AllocError>
    ensures { IfOk result (λ form. form ≡ first_form place.units place.sparse (raw_bodies place.index place.at place.payload insn.now)) }
{
    let bodies = operands(&place, insn);
    if let Some(units) = form_of(alloc, &place, bodies.first)? {
        return Ok(Some(units));
    }
    form_of(alloc, &place, bodies.second)
}
