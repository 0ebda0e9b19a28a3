// A writer that misbehaves.
use std::io;
use std::io::{ErrorKind, Write};

/// The call at which a writer is at fault.
#[derive(Clone, Copy, PartialEq, Eq)]
pub(crate) enum Fails {
    Never,
    AtWrite,
    AtFlush,
}

/// A writer that signals interrupt so often, and then takes at most so many bytes at a time.
#[derive(Drop)]
pub(crate) struct Moody {
    pub(crate) interrupts: u8,
    pub(crate) most: usize,
    pub(crate) fault: Fails,
}

impl Write for Moody {
    fn write(&mut self, piece: &[u8]) -> io::Result<usize> {
        if self.interrupts > 0 {
            self.interrupts -= 1;
            return Err(io::Error::from(ErrorKind::Interrupted));
        }
        if self.fault == Fails::AtWrite {
            return Err(io::Error::from(ErrorKind::BrokenPipe));
        }
        Ok(piece.len().min(self.most))
    }

    fn flush(&mut self) -> io::Result<()> {
        if self.fault == Fails::AtFlush {
            return Err(io::Error::from(ErrorKind::BrokenPipe));
        }
        Ok(())
    }
}
