// Code items of a file, by the rules X20 to X23 of docs/dex-format.md: the head, the ranges with their handlers, and the
// instructions and payloads that its units are.
//
// Proved: `holds` is X20 for a method, and `item_bytes` with `takes_words` are its two parts; `walk` finds the instructions
// and payloads of units, and `broken_index` and `broken_payload` are X22 and X23; `handlers` are the lists of handlers; all
// exactly as `pi_format` defines them. Laws say that the pieces fill the code up, that ranges have their handlers, and that
// a code item stands in the file with all its bytes.
#![tactic(auto)]

mod bytes;
mod codes;
mod handler_lists;
mod heads;
mod indices;
mod laws;
mod numbers;
mod pieces;
mod ranges;
mod reading;
mod shared;
mod switches;
mod walking;
mod walks;

pub use codes::handlers;
pub use handler_lists::{Handler, HandlerList, HandlerLists};
pub use heads::{CodeHead, head, lies, units};
pub use indices::broken_index;
pub use laws::{
    holds_in_parts, items_stand, none_breaks, pieces_fill_up, ranges_are_served, ranges_stand,
};
pub use numbers::{signed, word};
pub use pieces::{Piece, What};
pub use ranges::{TryRange, lists_at, ranges_hold, try_range};
pub use shared::{holds, item_bytes, takes_words};
pub use switches::broken_payload;
pub use walking::walk;
pub use walks::Walk;
