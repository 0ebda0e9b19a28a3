// The number of what stands at a place.

ghost use Rattle.std.specs.Prelude.{◌≡◌, ◌++◌, map, OnOk};
ghost use Rattle.pi_dexnumbers.specs.Rows.{rank_at};

use pi_model::listed::Listed;
use std::alloc::AllocError;

/// The number of what stands at a place, 0 where nothing does.
pub(crate) fn number_at(ranks: &[u32], place: u32) -> u32
    ensures { result ≡ rank_at ranks.now place }
{
    ranks.get(place as usize).copied().unwrap_or(0)
}

/// Adds the numbers of what stands at places.
pub(crate) fn put_numbers(
    row: &mut Listed<u32>,
    ranks: &[u32],
    places: &[u32],
) -> Result<(), AllocError>
    ensures { OnOk result (row.new ≡ row.old ++ map (rank_at ranks.now) places.now) }
{
    for place in places {
        row.push(number_at(ranks, *place))?;
    }
    Ok(())
}
