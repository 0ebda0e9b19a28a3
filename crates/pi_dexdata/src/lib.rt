// The parts of classes that stand beside their instructions, as the tables of a file have them: the payloads of switches and of
// array data, the values of static fields, and the handler tables of codes. docs/dex-format.md states the rules, under "How
// classes become tables"; `pi_classtables` has them as definitions (`Layout`, `Values` and `Ranges`).
//
// Proved, each up to want of memory: `payload` answers exactly the units of the payload of an instruction that one can be laid for,
// and `is_scattered` whether a switch needs one with keys; `value` is the value that sets a field, by the number of the string or
// the type that it names; `handlers` answers exactly the ranges of a handler table and their lists, each list once, by the numbers
// of the types that the entries catch. Where these numbers are not those of the tables, `handlers` still returns.
#![tactic(auto)]

mod groups;
mod numbered;
pub mod payload;
pub mod ranges;
mod spellings;
pub mod values;
