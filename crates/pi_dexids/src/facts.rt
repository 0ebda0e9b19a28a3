// Lists that keep a fact for each number.

ghost use Rattle.std.specs.Prelude.{◌≡◌, ◌<◌, ◌≤◌, ℕ, false, length, slice_get, slice_set, Some, IfOk};
ghost use Rattle.pi_dexids.specs.Facts.{AreFacts};

use std::alloc::{AllocError, Global};

/// The fact that a list keeps for a number.
pub fn fact<T: Copy>(list: &[T], k: usize) -> T
    requires { k < length list.now }
    ensures { slice_get list.now k ≡ Some result }
{
    list[k]
}

/// A flag for each of so many numbers, all of them down.
pub fn flags(alloc: Global, n: usize) -> Result<Vec<bool>, AllocError>
    ensures { IfOk result (λ list. AreFacts (λ k. false) n list.items) }
{
    let mut list = Vec::new(alloc);
    for done in 0..n {
        list.push(false)?;
    }
    Ok(list)
}

/// The same number for each of so many numbers.
pub fn numbers(alloc: Global, n: usize, number: u32) -> Result<Vec<u32>, AllocError>
    ensures { IfOk result (λ list. AreFacts (λ k. number) n list.items) }
{
    let mut list = Vec::new(alloc);
    for done in 0..n {
        list.push(number)?;
    }
    Ok(list)
}

/// Sets the fact of a number, where the list has that number.
#[tactic(auto, using(crate::proofs::Lists::set_past))]
pub fn note(list: &mut Vec<u32>, k: usize, number: u32)
    ensures { list.new.items ≡ slice_set list.old.items k number }
{
    if k < list.len() {
        list[k] = number;
    }
}
