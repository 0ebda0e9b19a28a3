// The plain program that every other crate speaks of: names, types, classes, members and instructions, as docs/program.md
// describes them. Values and searches that the machine's rules cite stand in specs/.
//
// Proved, of `Prog`: each call answers exactly what its description says, both where the thing is there and where it is
// not; `method_no` and `method`, `field_no` and `field` lead back to each other; `add_file` adds all of a file that fits
// behind the program, or nothing; `keeps` is the invariant: names and types are distinct, every number is in range, and
// there are at most eight files. The look-ups behind these calls answer as a search through the lists would.
#![tactic(auto)]

pub mod describe;
mod index;
pub mod insn;
pub mod listed;
pub mod numbers;
mod order;
pub mod prog;
pub mod reason;
mod regs;
pub mod texts;
