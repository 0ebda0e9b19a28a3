// Why an instruction was not written.

ghost use Rattle.std.specs.Prelude.{◌≡◌};
ghost use Rattle.pi_insn.specs.declared.fault.EncodeError.TheVariants.{OutOfMemory};

use std::alloc::AllocError;
use thiserror::Error;

/// Why an instruction was not written: there was no memory, or an operand does not fit the format of the opcode.
#[derive(Clone, Copy, Debug, PartialEq, Eq, Error)]
pub enum EncodeError {
    #[error("out of memory")]
    OutOfMemory,
    #[error("an operand does not fit its format")]
    Range,
}

impl From<AllocError> for EncodeError {
    ghost from_gives = { λ _ e. e ≡ OutOfMemory };

    fn from(_failed: AllocError) -> EncodeError {
        EncodeError::OutOfMemory
    }
}
