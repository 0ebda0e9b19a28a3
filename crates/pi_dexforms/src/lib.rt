// The units of one instruction in the first form of its length that its operands fit. docs/dex-format.md states the rule,
// under "How classes become tables".
//
// Proved, by the contract of `form`: where it answers Ok, the answer is exactly `first_form` of the operands that a file can
// give the instruction (`raw_bodies`): the units of the first opcode with so many units and room for the operands, registers
// one by one before registers in a row; and None exactly where no opcode has both. Only want of memory is free.
#![tactic(auto)]

mod bodies;
mod forms;
mod opcode;
mod place;
mod registers;

pub use forms::form;
pub use place::Place;
