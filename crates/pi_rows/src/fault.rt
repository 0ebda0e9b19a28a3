// Why a row is not followed.
use std::alloc::{AllocError, AllocFailed};
use std::io;
use std::io::ErrorKind;
use std::num::{ParseIntError, TryFromIntError};

#[derive(Clone, Copy)]
pub enum Fault {
    /// It is none that its subject has.
    NoRow,
    /// The outside fails, or there is too little memory.
    Outside(ErrorKind),
}

impl From<AllocError> for Fault {
    fn from(_e: AllocError) -> Fault {
        Fault::Outside(ErrorKind::OutOfMemory)
    }
}

impl<T: Drop> From<AllocFailed<T>> for Fault {
    fn from(_e: AllocFailed<T>) -> Fault {
        Fault::Outside(ErrorKind::OutOfMemory)
    }
}

impl From<io::Error> for Fault {
    fn from(e: io::Error) -> Fault {
        Fault::Outside(e.kind())
    }
}

impl From<ParseIntError> for Fault {
    fn from(_e: ParseIntError) -> Fault {
        Fault::NoRow
    }
}

impl From<TryFromIntError> for Fault {
    fn from(_e: TryFromIntError) -> Fault {
        Fault::NoRow
    }
}
