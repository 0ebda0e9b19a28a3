// Rows on files that are written: tables, one thing in a row, the bytes that they are written as, and whether these are read
// again. docs/WORKING.md says how a case is added.
#![tactic(auto)]

pub mod layouts;
mod made;
mod words;
