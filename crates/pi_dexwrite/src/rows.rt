// The rows of classes.

ghost use Rattle.std.specs.Prelude.{◌≡◌, List, Some, None, IfOk, IfErr};
ghost use Rattle.std.specs.List.{All};
ghost use Rattle.pi_classtables.specs.Whole.{Added, class_row, for_each, pools_for};
ghost use Rattle.pi_dexwrite.specs.declared.fault.BuildError.TheVariants.{Full};
ghost use Rattle.pi_dexwrite.specs.Held.{added_by, all_added, PartNamed};
ghost use Rattle.pi_dexwrite.specs.Ready.{IsReady, PartSpelled};

use crate::fault::BuildError;
use crate::part::Part;
use pi_dexnumbers::numbers_at;
use pi_dexpools::gathered::Ranks;
use pi_dexrows::class_row;
use pi_dexsizes::whatever_the_names;
use pi_dextables::tables::Class;
use pi_model::listed::Listed;
use std::alloc::{AllocError, Global};

/// The row of a class. None where an instruction has no form of its length that its index fits.
fn row_of(alloc: Global, part: &Part<'_>, ranks: &Ranks) -> Result<Option<Class>, AllocError>
    requires spelled { PartSpelled part.now }
    requires named { PartNamed part.now }
    ensures { IfOk result (λ row. (es : List Added) → IsReady es ranks.now part.now → row ≡ class_row (pools_for es) (added_by part.now)) }
{
    whatever_the_names();
    let numbers = numbers_at(alloc, part.places.as_slice(), ranks)?;
    class_row(
        alloc,
        part.prog,
        part.class,
        part.sparse.as_slice(),
        numbers.as_slice(),
    )
}

/// The rows of classes, in order.
pub(crate) fn rows_of(
    alloc: Global,
    parts: &[Part<'_>],
    ranks: &Ranks,
) -> Result<Listed<Class>, BuildError>
    requires spelled { All PartSpelled parts.now }
    requires named { All PartNamed parts.now }
    ensures ok { IfOk result (λ rows. (es : List Added) → All (IsReady es ranks.now) parts.now → for_each (class_row (pools_for es)) (all_added parts.now) ≡ Some rows) }
    ensures full { IfErr result (λ e. e ≡ Full → (es : List Added) → All (IsReady es ranks.now) parts.now → for_each (class_row (pools_for es)) (all_added parts.now) ≡ None) }
{
    let mut rows = Listed::new(alloc);
    for part in parts {
        match row_of(alloc, part, ranks) {
            Ok(Some(row)) => rows.push(row)?,
            Ok(None) => return Err(BuildError::Full),
            Err(AllocError) => return Err(BuildError::OutOfMemory),
        }
    }
    Ok(rows)
}
