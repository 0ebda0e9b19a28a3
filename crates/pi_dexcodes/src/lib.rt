// Codes as the tables of a file have them. docs/dex-format.md states the rules, under "How classes become tables"; `pi_classtables` has
// them as definitions (`body_of` of `Whole`).
//
// Proved, up to want of memory: for a code that is laid out as the writer lays codes out, and the numbers of what it names in tables
// with at most 65,535 types, `body` answers exactly the code of these tables, None exactly where an instruction has no form of its
// length that the numbers fit. For other numbers `body` still returns, and nothing is said of what.
#![tactic(auto)]

mod catches;
mod code;
mod front;
mod lines;
mod payloads;

pub use code::body;
