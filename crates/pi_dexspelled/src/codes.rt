// A code, and all codes of a class.

ghost use Rattle.std.specs.Prelude.{◌≡◌, IfOk, map};
ghost use Rattle.std.specs.List.{list_all};
ghost use Rattle.pi_contents.specs.Named.{code_content, method_content};
ghost use Rattle.pi_classtables.specs.Whole.{methods_with};
ghost use Rattle.pi_dexdata.specs.Numbers.{no_text};
ghost use Rattle.pi_dexspelled.specs.Tests.{ends_at, are_laid, is_laid, optional_laid, method_laid, first_list, lists_behind};

use crate::catches::are_caught;
use crate::front::front_of;
use crate::insns::FURTHEST;
use crate::steps::behind_lines;
use pi_model::describe::{Code, MethodDesc};
use pi_model::listed::Listed;
use std::alloc::{AllocError, Global};

/// Whether an address is there, and is that one.
fn ends_at(units: u32, end: Option<u32>) -> bool
    ensures { result ≡ ends_at units end }
{
    match end {
        Some(end) => end == units,
        None => false,
    }
}

/// Whether the instructions of a code and their payloads are laid out as the writer lays them out.
#[tactic(auto, using(crate::proofs::Parts::laid_by, crate::proofs::Parts::too_far, crate::proofs::Parts::too_long))]
fn are_laid(alloc: Global, listed: &[u32], code: &Code) -> Result<bool, AllocError>
    ensures { IfOk result (λ b. b ≡ are_laid listed.now (code_content no_text code.now)) }
{
    let lines = code.insns.as_slice();
    let front = front_of(lines);
    if front.end > u64::from(FURTHEST) || code.units > FURTHEST {
        return Ok(false);
    }
    let (first, behind) = lines.split_at(front.count);
    let end = behind_lines(alloc, listed, front.end as u32, first, behind)?;
    Ok(ends_at(code.units, end))
}

/// Whether a code is laid out as the writer lays it out, and a file can say its handlers.
fn is_laid(alloc: Global, listed: &[u32], code: &Code) -> Result<bool, AllocError>
    ensures { IfOk result (λ b. b ≡ is_laid listed.now (code_content no_text code.now)) }
{
    let laid = are_laid(alloc, listed, code)?;
    Ok(laid && are_caught(code.tries.as_slice()))
}

/// The same of a method, which may have no code.
fn is_method_laid(alloc: Global, listed: &[u32], method: &MethodDesc) -> Result<bool, AllocError>
    ensures { IfOk result (λ b. b ≡ method_laid (record { content = method_content no_text method.now; sparse = listed.now })) }
{
    match &method.code {
        Some(code) => is_laid(alloc, listed, code),
        None => Ok(true),
    }
}

/// The same of methods with their lists of addresses; one that the lists do not reach has none.
#[tactic(auto, using(crate::proofs::Spelled::methods_at))]
pub(crate) fn are_methods_laid(
    alloc: Global,
    methods: &[MethodDesc],
    sparse: &[Listed<u32>],
) -> Result<bool, AllocError>
    ensures { IfOk result (λ b. b ≡ list_all method_laid (methods_with (map (method_content no_text) methods.now) sparse.now)) }
{
    let mut rest = sparse;
    for method in methods {
        let (listed, behind) = first_of(rest);
        rest = behind;
        if !is_method_laid(alloc, listed, method)? {
            return Ok(false);
        }
    }
    Ok(true)
}

/// The first of lists of addresses, none where there is none, and the lists behind it.
fn first_of(sparse: &[Listed<u32>]) -> (&[u32], &[Listed<u32>])
    ensures first { result.0.now ≡ first_list sparse.now }
    ensures behind { result.1.now ≡ lists_behind sparse.now }
{
    match sparse {
        [first, behind @ ..] => (first.as_slice(), behind),
        [] => (&[], sparse),
    }
}
