// Tests the tables of a file by the rules X1 to X17 of docs/dex-format.md, lends its strings and entries by number, and
// says what its entries say.
//
// Proved: `Raw::new` answers Ok exactly where none of these rules is broken, and else the lowest one at its lowest place
// (`told`); strings and entries are lent without copy, as the exact slices of the file; and what an entry names is there.
#![tactic(auto)]

mod asking;
mod classes;
mod distinct;
mod fault;
mod header;
mod known;
mod map;
mod members;
mod protos;
mod raw;
mod type_lists;
mod view;

pub use fault::DexFault;
pub use pi_dexids::entries::{ClassDef, Member, Proto};
pub use raw::Raw;
