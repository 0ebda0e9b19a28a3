// Types in rising order.

ghost use Rattle.std.specs.Prelude.{◌≡◌, map, IfOk};
ghost use Rattle.pi_classtables.specs.Sorted.{sorted, text_order};
ghost use Rattle.pi_dexnumbers.specs.Rows.{row_places, type_row, type_of_row};

use crate::lookup::number_at;
use pi_dexranks::rank_rows;
use pi_model::listed::Listed;
use std::alloc::{AllocError, Global};

/// Types in rising order by the numbers of their texts, and the place there of each as they stood.
#[derive(Debug, Drop)]
pub(crate) struct RankedTypes {
    pub(crate) entries: Listed<u32>,
    pub(crate) ranks: Listed<u32>,
}

/// A row for each type.
fn type_rows(alloc: Global, types: &[u32], texts: &[u32]) -> Result<Listed<Listed<u32>>, AllocError>
    ensures { IfOk result (λ rows. rows ≡ map (type_row texts.now) types.now) }
{
    let mut rows = Listed::new(alloc);
    for text in types {
        rows.push(Listed::from_slice(alloc, &[number_at(texts, *text)])?)?;
    }
    Ok(rows)
}

/// The entry of each row.
fn type_entries(alloc: Global, rows: &[Listed<u32>]) -> Result<Listed<u32>, AllocError>
    ensures { IfOk result (λ entries. entries ≡ map type_of_row rows.now) }
{
    let entries = rows
        .iter()
        .map(|row| number_at(row.as_slice(), 0))
        .collect(alloc)?;
    Ok(Listed::from_vec(entries))
}

/// Types in rising order; `texts` are the numbers of the texts.
pub(crate) fn rank_types(
    alloc: Global,
    types: &[u32],
    texts: &[u32],
) -> Result<RankedTypes, AllocError>
    ensures entries { IfOk result (λ r. r.entries ≡ map type_of_row (sorted text_order (map (type_row texts.now) types.now))) }
    ensures ranks { IfOk result (λ r. r.ranks ≡ row_places (map (type_row texts.now) types.now)) }
{
    let ranked = rank_rows(alloc, type_rows(alloc, types, texts)?)?;
    let entries = type_entries(alloc, ranked.sorted.as_slice())?;
    Ok(RankedTypes {
        entries,
        ranks: ranked.ranks,
    })
}
