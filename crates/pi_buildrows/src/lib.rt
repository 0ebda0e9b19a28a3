// Rows on files that classes are written to: programs, of files or described by rows, the file that says their classes, and
// whether that is read again. docs/WORKING.md says how a case is added.
#![tactic(auto)]

mod building;
pub mod builds;
mod classes;
mod codes;
mod described;
