// What classes name, gathered so that each thing stands once, in the order of its first use: texts, types, prototypes, fields and
// methods, each by the places of what it is made of. docs/dex-format.md states what a file numbers, under "How classes become
// tables"; `specs/Gathered` says what is gathered, `specs/Ranked` what numbers it has.
//
// Proved, by the contracts of `Pools`: `text`, `ty`, `field` and `method` put exactly the thing and what it is made of behind what
// is there, each unless it is there already, and answer its place; whatever they answer, what was there stands first, as it
// stood; `cut` keeps the first so many of each kind. Only want of memory is free.
#![tactic(auto)]

mod added;
pub mod gathered;
mod keys;
mod members;
mod place;
mod pools;

pub use pools::Pools;
