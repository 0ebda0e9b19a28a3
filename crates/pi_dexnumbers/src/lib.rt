// The first tables of a file and the numbers in it of what classes name, made from what is gathered. docs/dex-format.md states the
// rule, under "How classes become tables"; `pi_classtables` has it as definitions (`Numbers`), and `pi_dexpools` says what is
// gathered (`Ranked`).
//
// Proved, each up to want of memory: of what is whole and has at most 65,535 types and prototypes, `number_tables` answers exactly
// the strings, types, prototypes, fields and methods in rising order, each once, and the number of each text, type, field and method
// as it was gathered; `numbers_at` answers exactly the number of what stands at each place, 0 where nothing does.
#![tactic(auto)]

mod lookup;
mod members;
mod places;
mod protos;
mod tables;
mod types;

pub use places::numbers_at;
pub use tables::{Numbered, number_tables};
