// The strings and types of a file and the entries of its tables, by their ids: rules X11 to X13 of docs/dex-format.md, and
// what is looked up once for later rules.
//
// Proved: `tails`, `string_order_rule` and `types_rule` answer exactly the lowest place at which X11, X12 and X13 are
// broken; entries are what `pi_format` says that they are; what is kept of texts and types is what reading them anew
// gives. Each text is read by itself, also where texts overlap: `tails` answers want of memory where all together have
// more units than a file may have bytes (which no contract counts).
#![tactic(auto)]

pub mod entries;
pub mod facts;
pub mod strings;
pub mod tail;
pub mod tails;
pub mod texts;
pub mod types;
