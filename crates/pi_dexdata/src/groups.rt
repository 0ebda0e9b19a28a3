// The entries of a handler table as ranges with their handlers.

ghost use Rattle.std.specs.Prelude.{◌≡◌, ℕ, ◌+◌, ◌≤◌, ◌==◌, ◌&&◌, ◌++◌, List, [], Option, IfOk};
ghost use Rattle.std.specs.List.{All};
ghost use Rattle.pi_classtables.specs.Ranges.{Group as Ranged};
ghost use Rattle.pi_dexdata.specs.Grouped.{closed, before, maybe_before, with_number, number_for, numbers_behind, grouped};

use pi_dextables::tables::{Catch, Catches};
use pi_model::describe::Catch as Entry;
use pi_model::listed::Listed;
use std::alloc::{AllocError, Global};
use std::marker::Model;

/// A range of units, by its first unit and how many it has, with its handlers.
#[derive(Drop)]
pub(crate) struct Group {
    pub from: u32,
    pub size: u16,
    pub catches: Catches,
}

impl Model for Group {
    ghost use Rattle.std.specs.Prelude.{◌+◌};
    ghost use Rattle.pi_classtables.specs.Ranges.{Group as Ranged};

    ghost Value = { Ranged };

    ghost view = { λ g. record { from = g.from; to = g.from + g.size; catches = g.catches } };
}

/// A range whose handlers so far each catch a type.
#[derive(Drop)]
struct Begun {
    from: u32,
    size: u16,
    typed: Listed<Catch>,
}

impl Model for Begun {
    ghost use Rattle.std.specs.Prelude.{◌+◌};
    ghost use Rattle.pi_dexdata.specs.Grouped.{Begun as Started};

    ghost Value = { Started };

    ghost view = { λ b. record { from = b.from; to = b.from + b.size; typed = b.typed } };
}

impl Begun {
    /// The range of an entry, with no handler yet.
    fn of_entry(alloc: Global, entry: &Entry) -> Begun
        requires order { entry.now.from ≤ entry.now.to }
        requires size { entry.now.to ≤ entry.now.from + 65535 }
        ensures { result ≡ record { from = entry.now.from; to = entry.now.to; typed = [] } }
    {
        Begun {
            from: entry.from,
            size: (entry.to - entry.from) as u16,
            typed: Listed::new(alloc),
        }
    }

    /// Whether an entry has that range.
    fn has(&self, entry: &Entry) -> bool
        ensures { result ≡ (entry.now.from == self.now.from) && (entry.now.to == self.now.to) }
    {
        entry.from == self.from
            && u64::from(entry.to) == u64::from(self.from) + u64::from(self.size)
    }

    /// The range with these handlers, and one that catches the rest or none.
    fn closed(self, last: Option<u32>) -> Group
        ensures { result ≡ closed self last }
    {
        Group {
            from: self.from,
            size: self.size,
            catches: Catches {
                typed: self.typed,
                last,
            },
        }
    }
}

/// The number of the type that an entry catches, the first of the numbers that are left; 0 where there is none left.
fn number_for(entry: &Entry, numbers: &[u16]) -> Option<u16>
    ensures { result ≡ number_for entry.now.ty numbers.now }
{
    match (entry.ty, numbers) {
        (None, _) => None,
        (Some(_), []) => Some(0),
        (Some(_), [number, ..]) => Some(*number),
    }
}

/// The numbers that are left behind an entry.
fn numbers_behind<'a>(entry: &Entry, numbers: &'a [u16]) -> &'a [u16]
    ensures { result.now ≡ numbers_behind entry.now.ty numbers.now }
{
    match (entry.ty, numbers) {
        (Some(_), [_, behind @ ..]) => behind,
        _ => numbers,
    }
}

/// The range of an entry: the one that has begun, where it is the same, and else a new one behind it.
fn range_for(
    alloc: Global,
    groups: &mut Listed<Group>,
    current: Option<Begun>,
    entry: &Entry,
) -> Result<Begun, AllocError>
    requires order { entry.now.from ≤ entry.now.to }
    requires size { entry.now.to ≤ entry.now.from + 65535 }
    ensures from { IfOk result (λ b. b.from ≡ entry.now.from) }
    ensures to { IfOk result (λ b. b.to ≡ entry.now.to) }
    ensures groups { IfOk result (λ b. (number : Option ℕ) (rest : List Ranged) →
        groups.new ++ before b (with_number entry.now.from entry.now.to entry.now.at number rest)
        ≡ groups.old ++ maybe_before current (with_number entry.now.from entry.now.to entry.now.at number rest)) }
{
    let Some(begun) = current else {
        return Ok(Begun::of_entry(alloc, entry));
    };
    if begun.has(entry) {
        return Ok(begun);
    }
    groups.push(begun.closed(None))?;
    Ok(Begun::of_entry(alloc, entry))
}

/// Adds a handler to a range; one that catches all ends it.
fn add_handler(
    groups: &mut Listed<Group>,
    begun: Begun,
    at: u32,
    number: Option<u16>,
) -> Result<Option<Begun>, AllocError>
    ensures { IfOk result (λ next. (rest : List Ranged) →
        groups.new ++ maybe_before next rest ≡ groups.old ++ before begun (with_number begun.from begun.to at number rest)) }
{
    let mut begun = begun;
    let Some(ty) = number else {
        groups.push(begun.closed(Some(at)))?;
        return Ok(None);
    };
    begun.typed.push(Catch { ty, to: at })?;
    Ok(Some(begun))
}

/// The entries of a handler table as ranges; `numbers` are those of the types that the entries catch, in order.
pub(crate) fn groups_of(
    alloc: Global,
    entries: &[Entry],
    numbers: &[u16],
) -> Result<Listed<Group>, AllocError>
    requires order { All (λ c. c.from ≤ c.to) entries.now }
    requires size { All (λ c. c.to ≤ c.from + 65535) entries.now }
    ensures { IfOk result (λ groups. groups ≡ grouped entries.now numbers.now) }
{
    let mut groups = Listed::new(alloc);
    let mut current = None;
    let mut left = numbers;
    for entry in entries {
        let number = number_for(entry, left);
        left = numbers_behind(entry, left);
        let begun = range_for(alloc, &mut groups, current, entry)?;
        current = add_handler(&mut groups, begun, entry.at, number)?;
    }
    if let Some(begun) = current {
        groups.push(begun.closed(None))?;
    }
    Ok(groups)
}
