// The members that a class lists. docs/dex-format.md states how class data has them.

ghost use Rattle.std.specs.Prelude.{◌≡◌};
ghost use Rattle.pi_format.specs.Rules.ClassData.{no_rows};

use pi_model::listed::Listed;
use std::alloc::Global;
use std::marker::Model;

/// A member that a class lists: its number in the table of fields or methods, its flags, and the offset of its code, 0
/// where it has none.
#[derive(Debug, Drop)]
pub struct MemberRow {
    pub id: u32,
    pub flags: u32,
    pub code: u32,
}

impl Model for MemberRow {
    ghost use Rattle.pi_format.specs.Rules.Rows.{MemberRow};

    ghost Value = { MemberRow };

    ghost view = { λ row. record { id = row.id; flags = row.flags; code = row.code } };
}

/// The members of a class, list by list, in the order of their numbers.
#[derive(Debug, Drop)]
pub struct ClassRows {
    pub statics: Listed<MemberRow>,
    pub instances: Listed<MemberRow>,
    pub directs: Listed<MemberRow>,
    pub virtuals: Listed<MemberRow>,
}

impl Model for ClassRows {
    ghost use Rattle.pi_format.specs.Rules.ClassData.{ClassRows};

    ghost Value = { ClassRows };

    ghost view = { λ rows. record { statics = rows.statics; instances = rows.instances; directs = rows.directs; virtuals = rows.virtuals } };
}

impl ClassRows {
    /// No members.
    pub fn none(alloc: Global) -> ClassRows
        ensures { result ≡ no_rows }
    {
        ClassRows {
            statics: Listed::new(alloc),
            instances: Listed::new(alloc),
            directs: Listed::new(alloc),
            virtuals: Listed::new(alloc),
        }
    }
}
