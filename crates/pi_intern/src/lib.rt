// The addresses of texts by their names, with a transaction that can be taken back. docs/stores.md states the rules.
//
// Proved: `Literals` has a slot for each name, and `abort` gives exactly the slots at `begin`. The program does not use it
// yet.
#![tactic(auto)]

mod literals;

pub use literals::Literals;
