// Rows of numbers in rising order.

ghost use Rattle.std.specs.Prelude.{◌≡◌, map, IfOk};
ghost use Rattle.pi_classtables.specs.Sorted.{sorted, place_in, text_order};

use crate::ranked::{Ranked, rank_lists};
use pi_model::listed::Listed;
use std::alloc::{AllocError, Global};

/// Rows of numbers in rising order, and the place there of each as they stood.
#[derive(Debug, Drop)]
pub struct RankedRows {
    pub sorted: Listed<Listed<u32>>,
    pub ranks: Listed<u32>,
}

/// Rows of numbers in rising order, each once, and the place of each in that order.
pub fn rank_rows(alloc: Global, rows: Listed<Listed<u32>>) -> Result<RankedRows, AllocError>
    ensures sorted { IfOk result (λ r. r.sorted ≡ sorted text_order rows) }
    ensures ranks { IfOk result (λ r. r.ranks ≡ map (λ x. place_in text_order x (sorted text_order rows)) rows) }
{
    let Ranked { sorted, ranks } = rank_lists(alloc, rows)?;
    Ok(RankedRows { sorted, ranks })
}
