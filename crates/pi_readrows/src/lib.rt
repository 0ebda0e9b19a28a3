// Rows on what is read: the tables of a file, the members of its classes and its code items; programs, and look-ups in them;
// jobs, selections and assembler text. docs/WORKING.md says how a case is added.
#![tactic(auto)]

pub mod asmtext;
mod chain;
mod code;
pub mod jobs;
pub mod lookups;
mod members;
mod numbered;
mod raw;
pub mod reader;
mod said;
mod texts;
