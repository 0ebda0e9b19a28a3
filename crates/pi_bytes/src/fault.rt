// Why bytes were not read. docs/dex-format.md states when each fault comes.

ghost use Rattle.std.specs.Prelude.{◌≡◌};
ghost use Rattle.pi_bytes.specs.declared.fault.MutfError.TheVariants.{OutOfMemory};

use std::alloc::{AllocError, AllocFailed};
use thiserror::Error;

/// Why a number or a piece was not read.
#[derive(Clone, Copy, Debug, PartialEq, Eq, Error)]
pub enum ReadFault {
    /// Bytes are wanting: they end before the number or the piece does.
    #[error("the bytes end too early")]
    Short,
    /// The fifth byte of a leb128 number does not end it within 32 bits.
    #[error("a leb128 number leaves 32 bits")]
    LongLeb,
}

/// Why a text was not read.
#[derive(Clone, Copy, Debug, PartialEq, Eq, Error)]
pub enum MutfError {
    #[error("out of memory")]
    OutOfMemory,
    /// The first byte that does not begin one of the units, or that should be the 0 behind them.
    #[error("byte {0} is not that of a text")]
    Bad(usize),
}

impl<T: Drop> From<AllocFailed<T>> for MutfError {
    ghost from_gives = { λ _ e. e ≡ OutOfMemory };

    fn from(_failed: AllocFailed<T>) -> MutfError {
        MutfError::OutOfMemory
    }
}

impl From<AllocError> for MutfError {
    ghost from_gives = { λ _ e. e ≡ OutOfMemory };

    fn from(_failed: AllocError) -> MutfError {
        MutfError::OutOfMemory
    }
}
