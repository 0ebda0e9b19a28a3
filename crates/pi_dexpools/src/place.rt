// The place of a thing in a set in the order of insertion.

ghost use Rattle.std.specs.Prelude.{◌≡◌, OnOk, IfOk, IsTrue, length, take};
ghost use Rattle.std.specs.List.{list_any};
ghost use Rattle.pi_dexpools.specs.Gathered.{with_new, place_of};

use indexmap::IndexSet;
use std::alloc::AllocError;
use std::hash::Hash;

/// Adds a thing, unless the same is there, and tells where it stands. As many things as 32 bits do not count need more memory
/// than there is.
pub(crate) fn place_in<T: Eq + Hash + Drop>(
    set: &mut IndexSet<T>,
    thing: T,
) -> Result<u32, AllocError>
    ensures keys { OnOk result (set.new.keys ≡ with_new T.eq set.old.keys thing) }
    ensures place { IfOk result (λ place. place ≡ place_of T.eq thing set.new.keys) }
    ensures there { OnOk result (IsTrue (list_any (T.eq thing) set.new.keys)) }
    ensures grown { take (length set.old.keys) set.new.keys ≡ set.old.keys }
{
    let place = match set.insert_full(thing) {
        Ok((place, _)) => place,
        Err(_) => return Err(AllocError),
    };
    match u32::try_from(place) {
        Ok(place) => Ok(place),
        Err(_) => Err(AllocError),
    }
}
