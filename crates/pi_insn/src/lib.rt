// Reading and writing of instructions as 16-bit units, and of the payloads that they point at. docs/dex-format.md has the
// formats and the table of opcodes.
//
// Proved: `decode` reads what stands at a unit by the one table of opcodes, or answers that the opcode is unsupported or
// cut; `payload` lends the payload that stands whole at a unit; `encode` writes the units of an instruction, or answers
// that an operand does not fit. The law `written_is_read` says that what is written is read again, whatever stands before
// and behind.
#![tactic(auto)]

mod data;
mod fault;
mod laws;
mod lent;
mod numbers;
mod operands;
mod packed;
mod raw;
mod reading;
mod rows;
mod table;
mod writing;

pub use data::Payload;
pub use fault::EncodeError;
pub use laws::{read_fits, read_is_in_table, written_is_read};
pub use lent::payload;
pub use raw::{InsnError, RawBody, RawInsn, RawRegs};
pub use reading::decode;
pub use rows::ROWS;
pub use table::{
    Listing, Literal, Named, NamedPair, Pair, Payloads, Plain, Row, Single, Triple, row_of,
    units_of,
};
pub use writing::encode;
