// The row of a class as the tables of a file have it: its types, the values of its static fields, and its members by rising numbers.
// docs/dex-format.md states the rules, under "How classes become tables".
//
// Proved, by the contract of `class_row`: where it answers Ok, the answer is `class_row` of `pi_classtables` for the pools of any
// classes among which the class is, where the numbers are those of what the class names there; None exactly where an instruction
// has no form of its length that they fit. For other numbers it still returns, and nothing is said of what.
#![tactic(auto)]

mod field_lists;
mod fields;
mod head;
mod methods;
mod names;
mod numbers;
mod order;
mod row;
mod rows;
mod values;

pub use row::class_row;
