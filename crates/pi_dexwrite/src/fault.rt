// Why classes were not written.

ghost use Rattle.std.specs.Prelude.{◌≡◌};
ghost use Rattle.pi_dexwrite.specs.declared.fault.BuildError.TheVariants.{OutOfMemory};

use std::alloc::AllocError;
use thiserror::Error;

/// Why classes were not written.
#[derive(Clone, Copy, Debug, PartialEq, Eq, Error)]
pub enum BuildError {
    #[error("out of memory")]
    OutOfMemory,
    /// No file can have all the classes: there are more than 65,535 types or prototypes, an index fits no form of an
    /// instruction's length, a list of handlers stands too far from the first, or the file would have more than 16 MiB.
    #[error("the classes do not fit a file")]
    Full,
}

impl From<AllocError> for BuildError {
    ghost from_gives = { λ _ e. e ≡ OutOfMemory };

    fn from(_failed: AllocError) -> BuildError {
        BuildError::OutOfMemory
    }
}
