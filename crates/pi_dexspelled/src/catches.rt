// The handlers of a code.

ghost use Rattle.std.specs.Prelude.{◌≡◌, ◌+◌, ◌==◌, ◌&&◌, ◌<◌, nat_le, length, map, is_some};
ghost use Rattle.std.specs.List.{list_all};
ghost use Rattle.pi_contents.specs.Named.{catch_content};
ghost use Rattle.pi_classtables.specs.Numbers.{no_pools};
ghost use Rattle.pi_classtables.specs.Ranges.{groups_of};
ghost use Rattle.pi_classtables.specs.Spelled.{catch_spelled};
ghost use Rattle.pi_dexdata.specs.Numbers.{no_text};
ghost use Rattle.pi_dexspelled.specs.Tests.{are_caught, joins, joins_first};

use pi_model::describe::Catch;

/// Whether a range ends no earlier than it begins, and has at most 65,535 units.
fn is_spelled(entry: &Catch) -> bool
    ensures { result ≡ catch_spelled (catch_content no_text entry.now) }
{
    entry.from <= entry.to && entry.to - entry.from <= 65535
}

/// Whether each entry has such a range.
fn are_spelled(tries: &[Catch]) -> bool
    ensures { result ≡ list_all (λ c. catch_spelled (catch_content no_text c)) tries.now }
{
    tries.iter().all(|entry| is_spelled(entry))
}

/// Whether an entry catches a type in the range of the one behind it.
fn joins(entry: &Catch, next: &Catch) -> bool
    ensures { result ≡ joins (catch_content no_text entry.now) (catch_content no_text next.now) }
{
    entry.ty.is_some() && next.from == entry.from && next.to == entry.to
}

/// Whether an entry catches a type in the range of the first behind it.
fn joins_first(entry: &Catch, behind: &[Catch]) -> bool
    ensures { result ≡ joins_first (catch_content no_text entry.now) (map (catch_content no_text) behind.now) }
{
    match behind {
        [next, ..] => joins(entry, next),
        [] => false,
    }
}

/// How many ranges the entries of a handler table are.
#[tactic(auto, using(crate::proofs::Groups::groups_at))]
fn group_count(tries: &[Catch]) -> usize
    ensures { result ≡ length (groups_of no_pools (map (catch_content no_text) tries.now)) }
{
    let mut count = 0;
    for (place, entry) in tries.iter().enumerate() {
        let (_, behind) = tries.split_at(place + 1);
        if !joins_first(entry, behind) {
            count += 1;
        }
    }
    count
}

/// Whether a file can say the entries of a handler table.
#[tactic(auto, using(crate::proofs::Groups::each_spelled))]
pub(crate) fn are_caught(tries: &[Catch]) -> bool
    ensures { result ≡ are_caught (map (catch_content no_text) tries.now) }
{
    are_spelled(tries) && group_count(tries) <= 65535
}
