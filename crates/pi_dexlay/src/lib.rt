// Writes the bytes of a DEX file whose tables are given as numbers (pi_dextables). docs/dex-format.md states how a file is
// laid out, under "How a file is written".
//
// Proved, by the contract of `write`: where it answers Ok, the bytes are exactly those that the layout gives (`bytes`), they
// break none of the rules X1 to X12 (`form`), and by the definitions that the reader is proved by they say exactly the
// tables (`said`): each string, type, prototype, field and method; of each class its type, flags, superclass, interfaces, the
// rows of its class data, its static values, and the code item of each method with its units, ranges and lists of handlers.
// TooLong means that the file would have more than 16 MiB, HandlerOffset that it would not, but that the place of a list of
// handlers does not fit 16 bits; after Ok neither holds (`fault`, `short`, `places`). So the two are exact, but for a want
// of memory, of which no contract says when it comes.
#![tactic(auto)]

mod begins;
mod codes;
mod entries;
mod fault;
mod file;
mod items;
mod kinds;
mod layout;
mod made;
mod pool;
mod pools;
mod rows;
mod sections;
mod sign;

pub use fault::LayError;
pub use file::write;
