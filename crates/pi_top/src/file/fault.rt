// Why the program of a file was not run. docs/commands.md states the answers.
ghost use Rattle.std.specs.Prelude.{◌≡◌};
ghost use Rattle.pi_top.specs.Faults.{fault_of};
ghost use Rattle.pi_top.specs.declared.file.fault.FileFault.TheVariants.{OutOfMemory};

use pi_dex::DexFault;
use std::alloc::{AllocError, AllocFailed};
use thiserror::Error;

/// Why the program of a file was not run.
#[derive(Clone, Copy, Debug, PartialEq, Eq, Error)]
pub enum FileFault {
    #[error("out of memory")]
    OutOfMemory,
    /// The broken rule of the format, and the offset that is named with it.
    #[error("rule {rule} at {at}")]
    Broken { rule: u8, at: u32 },
    /// The file says a program that is not small for the main class.
    #[error("not built")]
    NotBuilt,
}

impl<T: Drop> From<AllocFailed<T>> for FileFault {
    ghost from_gives = { λ _ e. e ≡ OutOfMemory };

    fn from(_failed: AllocFailed<T>) -> FileFault {
        FileFault::OutOfMemory
    }
}

impl From<AllocError> for FileFault {
    ghost from_gives = { λ _ e. e ≡ OutOfMemory };

    fn from(_failed: AllocError) -> FileFault {
        FileFault::OutOfMemory
    }
}

impl From<DexFault> for FileFault {
    ghost from_gives = { λ fault e. e ≡ fault_of fault };

    fn from(fault: DexFault) -> FileFault {
        match fault {
            DexFault::OutOfMemory => FileFault::OutOfMemory,
            DexFault::Rule { rule, at } => FileFault::Broken { rule, at },
        }
    }
}
