// Whether names and classes fit.

ghost use Rattle.std.specs.Prelude.{◌≡◌, ◌<◌, ◌≤◌, ◌^◌, ◌↔◌, ◌&&◌, ℕ, [], length, nat_lt, sum_by, IfOk, IsTrue, MatchOption};
ghost use Rattle.std.specs.List.{list_all};
ghost use Rattle.pi_model.specs.Program.{no_files, field_count, method_count};
ghost use Rattle.pi_model.specs.Uses.{class_below};
ghost use Rattle.pi_model.specs.Valid.{of_file, FitsBehind};
ghost use Rattle.pi_fits.specs.Tests.{are_few, are_first};

use crate::classes::{are_classes_below, are_of_first};
use crate::counts::{fields_of, methods_of};
use crate::distinct::are_distinct;
use pi_model::describe::{ClassDesc, Classes};
use pi_model::listed::Texts;
use std::alloc::{AllocError, Global};

/// One more than 32 bits count.
const TOO_MANY: u64 = 1 << 32;

/// Whether 32 bits count so many.
fn is_counted(count: Option<u64>) -> bool
    ensures { (n : ℕ) → MatchOption count (2 ^ 64 ≤ n) (λ m. m ≡ n) → result ≡ nat_lt n (2 ^ 32) }
{
    match count {
        Some(count) => count < TOO_MANY,
        None => false,
    }
}

/// Whether 32 bits count the names, the classes and their members.
fn are_few(names: &Texts, classes: &[ClassDesc]) -> bool
    ensures { result ≡ are_few names.now classes.now }
{
    (names.len() as u64) < TOO_MANY
        && (classes.len() as u64) < TOO_MANY
        && is_counted(fields_of(classes))
        && is_counted(methods_of(classes))
}

/// Whether classes are of the first file, and use the first so many names.
fn are_first(names: &Texts, classes: &[ClassDesc]) -> bool
    requires { length names.now < 2 ^ 32 }
    ensures { result ≡ are_first names.now classes.now }
{
    are_of_first(classes) && are_classes_below(names.len() as u32, classes)
}

/// Whether names and classes can be the first file of a program, one that names no type: 32 bits count them, no name stands twice,
/// each class is of the first file, and each name that it uses is one of the names.
#[tactic(auto, using(crate::proofs::Fitting::passing_fit, crate::proofs::Fitting::fitting_pass))]
pub fn fits_first(alloc: Global, names: &Texts, classes: &Classes) -> Result<bool, AllocError>
    ensures { IfOk result (λ b. IsTrue b ↔ FitsBehind no_files names.now [] classes.now) }
{
    let listed = classes.as_slice();
    if !are_few(names, listed) || !are_first(names, listed) {
        return Ok(false);
    }
    are_distinct(alloc, names.as_slice())
}
