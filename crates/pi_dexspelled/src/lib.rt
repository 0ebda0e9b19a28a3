// The test whether a file can say a class: what the format cannot spell is not there, and codes are laid out as the writer lays
// them out. docs/dex-format.md states it, under "How classes become tables", "When it can be written".
//
// Proved, by the contract of `is_spelled`: where it answers Ok, the answer is true exactly where a file can say the class
// (`IsSpelled` of `pi_classtables`), whatever the texts of its names are. Only want of memory is free.
#![tactic(auto)]

mod catches;
mod class;
mod codes;
mod front;
mod insns;
mod steps;

pub use class::is_spelled;
