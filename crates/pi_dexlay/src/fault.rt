// Why tables were not written.

ghost use Rattle.std.specs.Prelude.{◌≡◌};
ghost use Rattle.pi_dexlay.specs.declared.fault.LayError.TheVariants.{OutOfMemory};

use std::alloc::{AllocError, AllocFailed};
use thiserror::Error;

/// Why tables were not written.
#[derive(Clone, Copy, Debug, PartialEq, Eq, Error)]
pub enum LayError {
    #[error("out of memory")]
    OutOfMemory,
    /// The file would have more than 16 MiB.
    #[error("the file is too long")]
    TooLong,
    /// A list of handlers would stand where the 16 bits of a range do not reach.
    #[error("a list of handlers stands too far from the first")]
    HandlerOffset,
}

impl<T: Drop> From<AllocFailed<T>> for LayError {
    ghost from_gives = { λ _ e. e ≡ OutOfMemory };

    fn from(_failed: AllocFailed<T>) -> LayError {
        LayError::OutOfMemory
    }
}

impl From<AllocError> for LayError {
    ghost from_gives = { λ _ e. e ≡ OutOfMemory };

    fn from(_failed: AllocError) -> LayError {
        LayError::OutOfMemory
    }
}
