// Why the rows of a class are not read.

ghost use Rattle.std.specs.Prelude.{◌≡◌};
ghost use Rattle.pi_classdata.specs.declared.fault.RowsFault.TheVariants.{OutOfMemory};

use std::alloc::AllocError;

/// Why rows are not read: there is no memory, or they do not hold.
#[derive(Drop)]
pub(crate) enum RowsFault {
    OutOfMemory,
    Broken,
}

impl From<AllocError> for RowsFault {
    ghost from_gives = { λ _ e. e ≡ OutOfMemory };

    fn from(_failed: AllocError) -> RowsFault {
        RowsFault::OutOfMemory
    }
}
