// What the tables and the code items of a file say, with numbers of names in place of indices: the names that it brings,
// what its types and members are called, and the code that a code item says, instructions with the data that they point at
// and handlers in the order of search. docs/dex-format.md states what each means.
//
// Proved: `number` gives the names that a file brings and the number of each string; `Named` what types, fields, methods
// and prototypes are called; `code` the code that a code item says, each exactly as `pi_format` defines it.
#![tactic(auto)]

mod codes;
mod data;
mod insns;
mod named;
mod numbering;
mod numbers;
mod regs;

pub use codes::code;
pub use named::Named;
pub use numbering::{Numbered, number};
