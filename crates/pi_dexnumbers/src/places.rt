// The numbers of what a class names.

ghost use Rattle.std.specs.Prelude.{◌≡◌, map, IfOk};
ghost use Rattle.pi_dexpools.specs.Ranked.{number_of};

use crate::lookup::number_at;
use pi_dexpools::gathered::{Place, Ranks};
use pi_model::listed::Listed;
use std::alloc::{AllocError, Global};

/// The number of what stands at a place, 0 where nothing does.
fn number(ranks: &Ranks, place: Place) -> u32
    ensures { result ≡ number_of ranks.now place }
{
    match place {
        Place::Nothing => 0,
        Place::OfText(text) => number_at(ranks.texts.as_slice(), text),
        Place::OfType(ty) => number_at(ranks.types.as_slice(), ty),
        Place::OfField(field) => number_at(ranks.fields.as_slice(), field),
        Place::OfMethod(method) => number_at(ranks.methods.as_slice(), method),
    }
}

/// The number of what stands at each place, 0 where nothing does.
pub fn numbers_at(alloc: Global, places: &[Place], ranks: &Ranks) -> Result<Listed<u32>, AllocError>
    ensures { IfOk result (λ ns. ns ≡ map (number_of ranks.now) places.now) }
{
    let numbers = places
        .iter()
        .map(|place| number(ranks, *place))
        .collect(alloc)?;
    Ok(Listed::from_vec(numbers))
}
