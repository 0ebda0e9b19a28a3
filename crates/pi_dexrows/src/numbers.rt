// The numbers of what a class names, taken off in order.

ghost use Rattle.std.specs.Prelude.{◌≡◌, take, drop, IfOk};
ghost use Rattle.pi_model.specs.Texts.{units_of};
ghost use Rattle.pi_dexrows.specs.Taken.{first_no, behind_first};

use pi_model::listed::Units;
use std::alloc::{AllocError, Global};

/// The first number, 0 where there is none.
pub(crate) fn first(numbers: &[u32]) -> u32
    ensures { result ≡ first_no numbers.now }
{
    match numbers {
        [number, ..] => *number,
        [] => 0,
    }
}

/// The numbers behind the first.
pub(crate) fn behind(numbers: &[u32]) -> &[u32]
    ensures { result.now ≡ behind_first numbers.now }
{
    match numbers {
        [_, rest @ ..] => rest,
        [] => numbers,
    }
}

/// The first so many numbers, all where there are no more than that.
pub(crate) fn front(numbers: &[u32], count: usize) -> &[u32]
    ensures { result.now ≡ take count numbers.now }
{
    numbers.split_at(count.min(numbers.len())).0
}

/// The numbers behind the first so many.
pub(crate) fn back(numbers: &[u32], count: usize) -> &[u32]
    ensures { result.now ≡ drop count numbers.now }
{
    numbers.split_at(count.min(numbers.len())).1
}

/// The number of a type. More types than 16 bits count are never given one.
pub(crate) fn half(number: u32) -> Result<u16, AllocError>
    ensures { IfOk result (λ half. half ≡ number) }
{
    match u16::try_from(number) {
        Ok(half) => Ok(half),
        Err(_) => Err(AllocError),
    }
}

/// The numbers of types.
pub(crate) fn halves(alloc: Global, numbers: &[u32]) -> Result<Units, AllocError>
    ensures { IfOk result (λ units. units ≡ numbers.now) }
{
    let mut units = Units::new(alloc);
    for number in numbers {
        units.push(half(*number)?)?;
    }
    Ok(units)
}
