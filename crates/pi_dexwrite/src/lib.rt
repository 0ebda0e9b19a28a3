// Classes of programs as a file that says them. docs/dex-format.md states the rules, under "How classes become tables".
//
// Proved, by the contracts of `Builder`: classes stand in the order in which they were added, and a refusal changes nothing. The
// bytes of `finish` are those of the tables of the classes, keep X1 to X12 and each of X13 to X23 of which what it asks holds of
// the classes, and say them again, members in the order of a file, where X18 to X20 are kept. Full comes only where no file of 16 MiB
// has the classes: from `add_class` for the number of types and prototypes, from `finish` for the rest. And by that of
// `can_be_added`: it is true exactly where a file can say the class. Only want of memory is free.
#![tactic(auto)]

mod add;
mod addable;
mod builder;
mod fault;
mod finish;
mod part;
mod rows;

pub use addable::can_be_added;
pub use builder::Builder;
pub use fault::BuildError;
