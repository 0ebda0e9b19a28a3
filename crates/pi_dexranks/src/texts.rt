// Texts in rising order.

ghost use Rattle.std.specs.Prelude.{◌≡◌, map, IfOk};
ghost use Rattle.pi_classtables.specs.Sorted.{sorted, place_in, text_order};

use crate::ranked::{Ranked, rank_lists};
use pi_model::listed::{Listed, Texts};
use std::alloc::{AllocError, Global};

/// Texts in rising order, and the place there of each as they stood.
#[derive(Debug, Drop)]
pub struct RankedTexts {
    pub sorted: Texts,
    pub ranks: Listed<u32>,
}

/// Texts in rising order, each once, and the place of each in that order.
pub fn rank_texts(alloc: Global, texts: Texts) -> Result<RankedTexts, AllocError>
    ensures sorted { IfOk result (λ r. r.sorted ≡ sorted text_order texts) }
    ensures ranks { IfOk result (λ r. r.ranks ≡ map (λ x. place_in text_order x (sorted text_order texts)) texts) }
{
    let Ranked { sorted, ranks } = rank_lists(alloc, texts)?;
    Ok(RankedTexts { sorted, ranks })
}
