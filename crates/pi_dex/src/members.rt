// The members of a class, which are there.

ghost use Rattle.std.specs.Prelude.{◌≡◌, ◌<◌};
ghost use Rattle.pi_format.specs.Tables.{count_at, class_defs};
ghost use Rattle.pi_format.specs.Rules.Lowest.{tabulation};
ghost use Rattle.pi_format.specs.Rules.ClassData.{rows_of};
ghost use Rattle.pi_dex.specs.Judged.{AreThere, AreBytes};

use pi_classdata::{ClassRows, RowTable, rows_are_members};
use pi_dexraw::Raw;

/// The members of the class of a definition.
pub(crate) fn members<'t>(raw: &Raw<'_>, table: &'t RowTable, i: u32) -> &'t ClassRows
    requires counted { i < count_at raw.now class_defs }
    requires table { table.now ≡ tabulation (rows_of raw.now) 0 (count_at raw.now class_defs) }
    ensures rows { result.now ≡ rows_of raw.now i }
    ensures there { AreThere raw.now result.now }
{
    rows_are_members();
    table.get(i)
}

/// The law that bytes are numbers below 256.
pub(crate) fn are_bytes(file: &[u8])
    ensures { AreBytes file.now }
{
    let _length = file.len();
}
