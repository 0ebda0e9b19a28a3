// A file as tables of numbers: plain data, and definitions of what bytes spell it (`specs/Image`), of what must hold of it
// so that bytes can (`specs/Writable`), and of what a file has to say so that its tables are these (`specs/Said`).
// docs/dex-format.md states them in words, under "How a file is written".
//
// Proved: `written_tables_are_read`, the law that the bytes which spell tables break none of the rules X1 to X12 and say
// these tables, by the definitions of pi_format; and `is_writable`, the test whether bytes can spell tables.
#![tactic(auto)]

pub mod fits;
pub mod laws;
pub mod tables;
