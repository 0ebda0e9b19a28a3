// How the program ends. Each status has a number of its own, which the shell sees, and all but
// the first print one line. docs/outside.md states the rules.
ghost use Rattle.std.specs.Prelude.{◌≡◌};
ghost use Rattle.pi_base.specs.Status.{code_of};

/// The outcome of a run of the program: one cause each.
#[derive(Clone, Copy, Debug, PartialEq, Eq)]
pub enum Status {
    /// The result was written whole.
    Done = 0,
    /// The machine ended by a throwable that nothing caught.
    Uncaught = 1,
    /// The words are no command, or a number is out of its range.
    Usage = 2,
    /// A name is not in the store.
    Missing = 3,
    /// The store failed at a read.
    ReadFault = 4,
    /// The store failed at a write.
    WriteFault = 5,
    /// A class file breaks a rule of its format.
    Dex = 6,
    /// A method breaks a code rule, or has no typing.
    Verify = 7,
    /// The files do not fit together.
    Link = 8,
    /// An image breaks a rule of its format.
    Image = 9,
    /// A base address is refused.
    Bases = 10,
    /// A job or a selection is refused.
    Job = 11,
    /// An assembler text is refused.
    Asm = 12,
    /// The limit of steps was met.
    Steps = 13,
    /// The limit of the heap was met.
    Heap = 14,
    /// The limit of frames was met.
    Frames = 15,
    /// The output could not be written whole.
    OutFault = 16,
    /// A content or an image is longer than its limit.
    TooLarge = 17,
    /// Memory ran out.
    Memory = 18,
    /// What was asked for is not built into this program.
    NotBuilt = 19,
    /// What was asked for has no printed form.
    Unprintable = 20,
    /// An image cannot be moved to the base that was asked for.
    Rebase = 21,
    /// Two things that were compared are different.
    Differs = 22,
}

impl Status {
    /// The number with which the program ends, from 0 to 22.
    pub fn code(&self) -> u8
        ensures { result ≡ code_of self.now }
    {
        *self as u8
    }
}
