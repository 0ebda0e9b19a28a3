// A job as its text says it. docs/job.md states what the parts mean.

ghost use Rattle.std.specs.Prelude.{◌≡◌, IfOk};

use pi_model::listed::{Args, Listed, Units};
use pi_model::numbers::Addr;
use std::alloc::{AllocError, Global};
use std::marker::Model;

/// A name, as a text.
#[derive(Debug, Drop)]
pub struct Word {
    text: String,
}

impl Model for Word {
    ghost use Rattle.std.specs.Prelude.{ℕ, List};
    ghost use Rattle.std.specs.String.{string_bytes};

    ghost Value = { List ℕ };

    ghost view = { λ w. string_bytes w.text };
}

impl Word {
    /// The name with that text.
    pub fn from_str(alloc: Global, text: &str) -> Result<Word, AllocError>
        ensures { IfOk result (λ word. word ≡ text.now) }
    {
        Ok(Word {
            text: String::from_str(alloc, text)?,
        })
    }

    /// The text of the name.
    pub fn as_str(&self) -> &str
        ensures { result.now ≡ self.now }
    {
        self.text.as_str()
    }
}

/// Names in order.
pub type Words = Listed<Word>;

/// Image lines in order.
pub type ImageLines = Listed<ImageLine>;

/// One image: its DEX file, its image file, the base at which it is made, the base at which it is loaded, the file that
/// selects its classes, and the steps of one attempt.
#[derive(Debug, Drop)]
pub struct ImageLine {
    pub dex: Word,
    pub img: Word,
    pub at: Addr,
    pub load: Addr,
    pub selection: Option<Word>,
    pub budget: u32,
}

/// A whole job: its images, its further DEX files, the base and the bytes of the heap, the words of the frames, the steps of
/// a run, the descriptor of the main class, and the arguments.
#[derive(Debug, Drop)]
pub struct Job {
    pub images: ImageLines,
    pub dexes: Words,
    pub heap: Addr,
    pub bytes: u32,
    pub frames: u32,
    pub steps: u64,
    pub main: Units,
    pub args: Args,
}
