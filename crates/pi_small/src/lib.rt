// The programs that a lazy run takes today: the first file, which is made by hand, and the test whether the program of that
// file and one more is small. docs/dex-format.md states both.
//
// Proved: `core` makes the first file of a lazy run's chain exactly as `pi_format` defines it, with room for more;
// `is_small_program` answers whether a program is small for a main class exactly as `pi_duty` defines it.
#![tactic(auto)]

mod first_file;
mod small;

pub use first_file::{CLINIT, MAIN, core};
pub use small::is_small_program;
