// Lists in rising order, whatever their numbers are.

ghost use Rattle.std.specs.Prelude.{◌≡◌, map, IfOk};
ghost use Rattle.std.specs.Cmp.Lexicographic.{slice_cmp};
ghost use Rattle.std.specs.declared.cmp.Ordering.TheVariants.{Equal};
ghost use Rattle.pi_classtables.specs.Sorted.{sorted, place_in};

use crate::kept::keep;
use crate::keyed::keyed_by_place;
use pi_model::listed::Listed;
use std::alloc::{AllocError, Global};

/// Lists in rising order, and the place there of each as they stood.
#[derive(Drop)]
pub(crate) struct Ranked<T> {
    pub(crate) sorted: Listed<Listed<T>>,
    pub(crate) ranks: Listed<u32>,
}

/// Lists in rising order, each once, and the place of each in that order. None is copied.
pub(crate) fn rank_lists<T: Ord + Drop>(
    alloc: Global,
    lists: Listed<Listed<T>>,
) -> Result<Ranked<T>, AllocError>
    requires { (x y : T) → T.cmp x y ≡ Equal → x ≡ y }
    ensures sorted { IfOk result (λ r. r.sorted ≡ sorted (slice_cmp T.cmp) lists) }
    ensures ranks { IfOk result (λ r. r.ranks ≡ map (λ x. place_in (slice_cmp T.cmp) x (sorted (slice_cmp T.cmp) lists)) lists) }
{
    let mut ranks = vec![in alloc; 0; lists.len()]?;
    let mut keyed = keyed_by_place(alloc, lists)?;
    keyed.sort_unstable();
    let mut kept = Listed::new(alloc);
    for (list, place) in keyed {
        let rank = keep(&mut kept, Listed::from_vec(list))?;
        ranks[place as usize] = rank;
    }
    Ok(Ranked {
        sorted: kept,
        ranks: Listed::from_vec(ranks),
    })
}
