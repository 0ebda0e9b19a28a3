// Moving an image: a map of the words that hold addresses, and a patch that adds the same number to each of them.
// docs/stores.md states the rules.
//
// Proved: `patch` moves exactly the marked words, or names the first that would leave 32 bits and changes nothing. The
// program does not use it yet.
#![tactic(auto)]

mod bitmap;
mod moves;

pub use bitmap::Bitmap;
pub use moves::{PatchFault, patch};
