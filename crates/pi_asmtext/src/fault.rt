// Why a text is not taken. docs/assembler.md states when each fault comes.

ghost use Rattle.std.specs.Prelude.{◌≡◌};
ghost use Rattle.pi_asmtext.specs.declared.fault.AsmError.TheVariants.{OutOfMemory};

use std::alloc::AllocError;
use thiserror::Error;

/// What is wrong at a place of a text.
#[derive(Clone, Copy, Debug, PartialEq, Eq)]
pub enum AsmKind {
    Syntax,
    /// A class, member or label stands a second time.
    Duplicate,
    /// A label is not defined, or has no instruction behind it.
    Label,
    /// A number, a register, a list, a range or an offset does not fit where it is written.
    Range,
    /// There is more than a file can hold.
    TooMany,
}

/// Why a text is not taken.
#[derive(Clone, Copy, Debug, PartialEq, Eq, Error)]
pub enum AsmError {
    #[error("out of memory")]
    OutOfMemory,
    /// The place of the fault: its line, and its column in characters, both counted from 1.
    #[error("{line}:{column}: {kind:?}")]
    At {
        line: u32,
        column: u32,
        kind: AsmKind,
    },
}

impl From<AllocError> for AsmError {
    ghost from_gives = { λ _ e. e ≡ OutOfMemory };

    fn from(_failed: AllocError) -> AsmError {
        AsmError::OutOfMemory
    }
}
