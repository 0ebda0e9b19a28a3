// Handler tables as ranges of units with lists of handlers.

ghost use Rattle.std.specs.Prelude.{◌≡◌, ℕ, List, map, IfOk, IsTrue};
ghost use Rattle.std.specs.List.{list_all};
ghost use Rattle.pi_model.specs.declared.numbers.NameNo.{NameNo};
ghost use Rattle.pi_contents.specs.Named.{catch_content};
ghost use Rattle.pi_classtables.specs.Numbers.{Pools, type_no};
ghost use Rattle.pi_classtables.specs.Ranges.{groups_of, lists_of, ranges_of};
ghost use Rattle.pi_classtables.specs.Spelled.{catch_spelled};
ghost use Rattle.pi_dexdata.specs.Numbers.{caught, no_text};

use crate::groups::groups_of;
pub use crate::numbered::Handlers;
use crate::numbered::number_lists;
use pi_model::describe::Catch;
use std::alloc::{AllocError, Global};

/// The entries of a handler table as ranges with lists of handlers; `types` are the numbers of the types that the entries catch,
/// in order.
pub fn handlers(alloc: Global, tries: &[Catch], types: &[u16]) -> Result<Handlers, AllocError>
    requires spelled { IsTrue (list_all catch_spelled (map (catch_content no_text) tries.now)) }
    ensures { IfOk result (λ h. (p : Pools) (text : NameNo → List ℕ) → map (type_no p) (caught (map (catch_content text) tries.now)) ≡ types.now
        → (h.ranges ≡ ranges_of (groups_of p (map (catch_content text) tries.now))) × (h.lists ≡ lists_of (groups_of p (map (catch_content text) tries.now)))) }
{
    let groups = groups_of(alloc, tries, types)?;
    let handlers = number_lists(alloc, groups)?;
    Ok(handlers)
}
