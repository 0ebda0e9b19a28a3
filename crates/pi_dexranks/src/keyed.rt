// Lists beside the places where they stood.

ghost use Rattle.std.specs.Prelude.{◌≡◌, IfOk};
ghost use Rattle.pi_dexranks.specs.Keys.{AreKeys};

use pi_model::listed::Listed;
use std::alloc::{AllocError, Global};

/// Each list beside its place.
pub(crate) fn keyed_by_place<T: Drop>(
    alloc: Global,
    lists: Listed<Listed<T>>,
) -> Result<Vec<(Vec<T>, u32)>, AllocError>
    ensures { IfOk result (λ keyed. AreKeys (λ key. key.0.items) (λ key. key.1) lists keyed.items) }
{
    let mut keyed = Vec::new(alloc);
    for list in lists.into_vec() {
        let place = place_of(keyed.len())?;
        keyed.push((list.into_vec(), place))?;
    }
    Ok(keyed)
}

/// A number of things as 32 bits: more things than that need more memory than there is.
pub(crate) fn place_of(count: usize) -> Result<u32, AllocError>
    ensures { IfOk result (λ place. place ≡ count) }
{
    match u32::try_from(count) {
        Ok(place) => Ok(place),
        Err(_) => Err(AllocError),
    }
}
