// The handlers of a code.

ghost use Rattle.std.specs.Prelude.{◌≡◌, drop, IfOk};
ghost use Rattle.pi_dexcodes.specs.Caught.{narrow, type_numbers};

use std::alloc::{AllocError, Global};

/// A number as one of 16 bits, 0 where it is none.
fn narrow(number: u32) -> u16
    ensures { result ≡ narrow number }
{
    u16::try_from(number).unwrap_or(0)
}

/// The numbers behind so many, none where there are no more.
fn numbers_from(count: usize, numbers: &[u32]) -> &[u32]
    ensures { result.now ≡ drop count numbers.now }
{
    numbers.get(count..).unwrap_or(&[])
}

/// The numbers behind those of so many instructions, as those of types.
pub(crate) fn type_numbers(
    alloc: Global,
    lines: usize,
    numbers: &[u32],
) -> Result<Vec<u16>, AllocError>
    ensures { IfOk result (λ types. types.items ≡ type_numbers lines numbers.now) }
{
    let behind = numbers_from(lines, numbers);
    behind.iter().map(|number| narrow(*number)).collect(alloc)
}
