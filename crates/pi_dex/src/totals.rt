// Totals of what a file brings.

ghost use Rattle.std.specs.Prelude.{◌≡◌, ◌+◌, ◌≤◌, IfOk};
ghost use Rattle.pi_bytes.specs.Numbers.{most_bytes};

use pi_bytes::numbers::MOST_BYTES;
use std::alloc::AllocError;

/// A total with more. One that is greater than a file may be long is want of memory: only what many share can bring so
/// much.
pub(crate) fn add(total: u32, more: usize) -> Result<u32, AllocError>
    requires { total ≤ most_bytes }
    ensures sum { IfOk result (λ sum. sum ≡ total + more) }
    ensures most { IfOk result (λ sum. sum ≤ most_bytes) }
{
    if more > MOST_BYTES - total as usize {
        return Err(AllocError);
    }
    Ok(total + more as u32)
}
