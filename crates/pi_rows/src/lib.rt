// Rows of data that a program follows, one case after another: what they are about, the words and numbers in them, files
// that they make and alter, and how answers are told. docs/WORKING.md says how a case is added. Nothing is promised of it
// but that it is safe and returns: the crates of rows are what cases are told by, and the wanted lines judge them.
#![tactic(auto)]

pub mod fault;
pub mod files;
pub mod follow;
pub mod told;
pub mod words;
