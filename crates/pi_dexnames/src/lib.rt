// What a class names, gathered in the order of its first use. A file numbers the texts, types, prototypes, fields and methods that
// its classes name; docs/dex-format.md states the rule, under "How classes become tables" ("Numbers").
//
// Proved, by the contract of `name_class`: where it answers Ok, the pools are those before with all that `named_by_class` lists
// gathered in its order, and the answer is the place of each of these things, one behind the other, with `Nothing` for an
// instruction that names nothing. Ok or not, what was in the pools before stands first, as it stood. Only want of memory is free.
#![tactic(auto)]

mod class;
mod codes;
mod members;
mod named;

pub use class::name_class;
