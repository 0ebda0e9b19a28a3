// Lists in rising order, of which each is kept once.

ghost use Rattle.std.specs.Prelude.{◌≡◌, ◌+◌, ◌↔◌, length, IfOk, OnOk, IsTrue};
ghost use Rattle.std.specs.declared.cmp.Ordering.TheVariants.{Equal};
ghost use Rattle.pi_dexranks.specs.Kept.{EndsWith, IsKept};

use crate::keyed::place_of;
use pi_model::listed::Listed;
use std::alloc::AllocError;

/// Keeps a list behind the others unless they end with it, and answers its place.
pub(crate) fn keep<T: Ord + Drop>(
    kept: &mut Listed<Listed<T>>,
    list: Listed<T>,
) -> Result<u32, AllocError>
    requires { (x y : T) → T.cmp x y ≡ Equal → x ≡ y }
    ensures kept { OnOk result (IsKept kept.old list kept.new) }
    ensures place { IfOk result (λ place. place + 1 ≡ length kept.new) }
{
    let known = ends_with(kept.as_slice(), list.as_slice());
    if !known {
        kept.push(list)?;
    }
    place_of(kept.len() - 1)
}

/// Whether that list is the last.
fn ends_with<T: Ord>(lists: &[Listed<T>], list: &[T]) -> bool
    requires { (x y : T) → T.cmp x y ≡ Equal → x ≡ y }
    ensures { IsTrue result ↔ EndsWith lists.now list.now }
{
    match lists.last() {
        Some(last) => is_same(last.as_slice(), list),
        None => false,
    }
}

/// Whether two lists are equal.
fn is_same<T: Ord>(one: &[T], other: &[T]) -> bool
    requires { (x y : T) → T.cmp x y ≡ Equal → x ≡ y }
    ensures { IsTrue result ↔ (one.now ≡ other.now) }
{
    one.cmp(other).is_eq()
}
