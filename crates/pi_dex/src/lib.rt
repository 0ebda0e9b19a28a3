// Reads a file behind a chain: tests the rules X1 to X23 and adds what the file says to the program. docs/dex-format.md
// states the rules, and what program a file says.
//
// Proved, of `append` over all bytes of at most 16 MiB: it answers Ok exactly where no rule is broken, and else the broken
// rule with the lowest number at its lowest place (`told`); after Ok the program is the chain with exactly what the file
// says (`said`, by `SaysNext`), and after any refusal it is as it was (`same`).
//
// What many methods share is tested once, and summed up before anything is made of it: a file that would bring more than a
// file of 16 MiB could without sharing is answered by want of memory. The sums are proved exact; that they keep time and
// memory small is measured.
#![tactic(auto)]

mod adding;
mod asking;
mod classes;
mod code_rules;
mod inits;
mod members;
mod offsets;
mod places;
mod totals;
mod walk_rules;
mod weight;
mod words;

pub use adding::append;
pub use pi_dexraw::DexFault;
