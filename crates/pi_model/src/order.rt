// The names that one file brings in the order of their contents, so that one is found in few comparisons.

ghost use Rattle.std.specs.Prelude.{◌≡◌, ◌≢◌, ℕ, ◌+◌, ◌-◌, ◌<◌, ◌≤◌, ◌^◌, length, map, position, slice_get, IfOk, IfSome, IfNone};
ghost use Rattle.std.specs.List.{Contains};
ghost use Rattle.pi_model.specs.Order.{IsOrder, AreOrders};
ghost use Rattle.pi_model.specs.Texts.{same_text};

use crate::listed::{Listed, Units};
use std::alloc::{AllocError, Global};

/// The numbers of the names from one on, in the order of their contents.
pub(crate) fn order_of(alloc: Global, names: &[Units], first: usize) -> Result<Vec<u32>, AllocError>
    requires within { first ≤ length names.now }
    requires small { length names.now < 2 ^ 32 }
    ensures { IfOk result (λ order. IsOrder names.now first (length names.now - first) order.items) }
{
    let mut keyed: Vec<(&[u16], u32)> = Vec::new(alloc);
    for n in first..names.len() {
        keyed.push((names[n].as_slice(), n as u32))?;
    }
    keyed.sort_unstable();
    numbers_of(alloc, keyed.as_slice())
}

fn numbers_of(alloc: Global, keyed: &[(&[u16], u32)]) -> Result<Vec<u32>, AllocError>
    ensures { IfOk result (λ order. order.items ≡ map (λ key. key.1) keyed.now) }
{
    let mut order: Vec<u32> = Vec::new(alloc);
    for key in keyed {
        order.push(key.1)?;
    }
    Ok(order)
}

/// The lowest number of a name of that content among those in order.
pub(crate) fn find_in(names: &[Units], order: &[u32], text: &[u16]) -> Option<u32>
    requires { (first : ℕ) × (count : ℕ) × IsOrder names.now first count order.now }
    ensures some { IfSome result (λ n. slice_get names.now n ≡ Some text.now) }
    ensures listed { IfSome result (λ n. Contains order.now n) }
    ensures lowest { IfSome result (λ n. (first count : ℕ) → IsOrder names.now first count order.now → (k : ℕ) → first ≤ k → k < n → slice_get names.now k ≢ Some text.now) }
    ensures none { IfNone result ((first count : ℕ) → IsOrder names.now first count order.now → (k : ℕ) → first ≤ k → k < first + count → slice_get names.now k ≢ Some text.now) }
{
    let mut low = 0;
    let mut high = order.len();
    while low < high {
        let mid = low + (high - low) / 2;
        let n = order[mid];
        let less = names[n as usize].as_slice().cmp(text).is_lt();
        if less {
            low = mid + 1;
        } else {
            high = mid;
        }
    }
    if low == order.len() {
        return None;
    }
    let n = order[low];
    let same = names[n as usize].as_slice().cmp(text).is_eq();
    if same { Some(n) } else { None }
}

/// The number of the first name of that content, by an order for each file.
pub(crate) fn find_among(names: &[Units], orders: &[Listed<u32>], text: &[u16]) -> Option<u32>
    requires { AreOrders names.now 0 orders.now }
    ensures first { result ≡ position (same_text text.now) names.now }
    ensures some { IfSome result (λ n. slice_get names.now n ≡ Some text.now) }
    ensures none { IfNone result ((k : ℕ) → slice_get names.now k ≢ Some text.now) }
    ensures below { IfSome result (λ n. n < length names.now) }
{
    for order in orders {
        match find_in(names, order.as_slice(), text) {
            Some(n) => return Some(n),
            None => {}
        }
    }
    None
}
