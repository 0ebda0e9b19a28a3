// Why a file was not accepted. docs/dex-format.md states the rules by their numbers.

ghost use Rattle.std.specs.Prelude.{◌≡◌};
ghost use Rattle.pi_dexraw.specs.declared.fault.DexFault.TheVariants.{OutOfMemory};

use std::alloc::{AllocError, AllocFailed};
use thiserror::Error;

/// Why a file was not accepted.
#[derive(Clone, Copy, Debug, PartialEq, Eq, Error)]
pub enum DexFault {
    #[error("out of memory")]
    OutOfMemory,
    /// The broken rule with the lowest number, and the place that is named with it, the lowest where it is broken.
    #[error("rule {rule} at {at}")]
    Rule { rule: u8, at: u32 },
}

impl<T: Drop> From<AllocFailed<T>> for DexFault {
    ghost from_gives = { λ _ e. e ≡ OutOfMemory };

    fn from(_failed: AllocFailed<T>) -> DexFault {
        DexFault::OutOfMemory
    }
}

impl From<AllocError> for DexFault {
    ghost from_gives = { λ _ e. e ≡ OutOfMemory };

    fn from(_failed: AllocError) -> DexFault {
        DexFault::OutOfMemory
    }
}
