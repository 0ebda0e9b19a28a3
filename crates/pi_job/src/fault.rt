// Why a text was not read. docs/job.md states when each fault comes.

ghost use Rattle.std.specs.Prelude.{◌≡◌};
ghost use Rattle.pi_job.specs.declared.fault.TextFault.TheVariants.{OutOfMemory};

use std::alloc::{AllocError, AllocFailed};
use thiserror::Error;

/// Why a text was not read.
#[derive(Clone, Copy, Debug, PartialEq, Eq, Error)]
pub enum TextFault {
    #[error("out of memory")]
    OutOfMemory,
    /// The first line that breaks a rule, counted from 1; where a line is wanting at the end, the number of lines plus 1.
    #[error("line {0} breaks a rule")]
    Line(u32),
}

impl<T: Drop> From<AllocFailed<T>> for TextFault {
    ghost from_gives = { λ _ e. e ≡ OutOfMemory };

    fn from(_failed: AllocFailed<T>) -> TextFault {
        TextFault::OutOfMemory
    }
}

impl From<AllocError> for TextFault {
    ghost from_gives = { λ _ e. e ≡ OutOfMemory };

    fn from(_failed: AllocError) -> TextFault {
        TextFault::OutOfMemory
    }
}
