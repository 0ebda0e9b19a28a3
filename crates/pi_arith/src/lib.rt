// Whole-number arithmetic of the instructions on ints and longs, by the definitions of `pi_model`. docs/program.md states
// the rules. No call takes memory.
//
// Proved: `int_op`, `long_op`, `un_op` and `cmp_long` give exactly the result that the machine's arithmetic gives, and none
// exactly for division and remainder by 0.
#![tactic(auto)]

mod int;
mod long;
mod unary;

pub use int::int_op;
pub use long::{cmp_long, long_op};
pub use unary::un_op;
