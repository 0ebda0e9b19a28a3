// The class data and the static values of the classes of a file, by the rules X18 and X19 of docs/dex-format.md.
//
// Proved: `read_rows` is X18 with the members of all classes, `values_rule` X19, `class_values` the static values, each
// exactly as `pi_format` defines it; the laws `rows_are_members` and `values_are_there` say that members are there and
// belong to their class, and that what values name is there.
#![tactic(auto)]

mod apart;
mod fault;
mod flags;
mod judge;
mod laws;
mod read;
mod rows;
mod table;
mod values;

pub use flags::AccessFlags;
pub use laws::{rows_are_members, values_are_there};
pub use read::class_rows;
pub use rows::{ClassRows, MemberRow};
pub use table::{RowTable, lower, read_rows};
pub use values::{EncodedValue, Values, class_values, values_rule};
