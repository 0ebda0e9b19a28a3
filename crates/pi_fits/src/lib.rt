// The test whether names and classes can be the first file of a program. docs/program.md states what every program keeps.
//
// Proved, by the contract of `fits_first`: where it answers Ok, the answer is true exactly where the names and the classes, with no type,
// fit behind the program of no file (`FitsBehind` of `pi_model`). Only want of memory is free.
#![tactic(auto)]

mod classes;
mod codes;
mod counts;
mod distinct;
mod fits;
mod uses;

pub use fits::fits_first;
