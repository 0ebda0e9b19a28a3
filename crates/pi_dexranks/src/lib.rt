// Lists of numbers in rising order, each once, and the place of each in that order: what the tables of a file need of the texts of
// its strings, and of the rows of numbers by which its types, prototypes, fields and methods are compared. docs/dex-format.md
// states the rule, under "How classes become tables", at Numbers; `pi_classtables` has the order as a definition (`Sorted`).
//
// Proved, each up to want of memory: `rank_texts` and `rank_rows` answer exactly the lists in rising order, each once, and for each
// list as it stood its place there. That they compare few lists and copy none is no part of the contracts.
#![tactic(auto)]

mod kept;
mod keyed;
mod ranked;
mod rows;
mod texts;

pub use rows::{RankedRows, rank_rows};
pub use texts::{RankedTexts, rank_texts};
