// A job as far as the lines before say it, and what one more line adds.

ghost use Rattle.std.specs.Prelude.{◌≡◌};
ghost use Rattle.pi_job.specs.Job.{nothing_said, has_place, with_image, with_dex, with_heap, with_frames, with_steps, with_main, with_arg, whole_job};
ghost use Rattle.pi_job.specs.Took.{Adds, Took};

use crate::job::{ImageLine, ImageLines, Job, Word, Words};
use crate::names::{is_dex_name, is_img, names_apart};
use crate::numbers::number_in;
use crate::units::units_of;
use pi_model::listed::{Args, Units};
use pi_model::numbers::Addr;
use std::alloc::{AllocError, Global};

#[derive(Drop)]
pub(crate) struct Draft {
    pub images: ImageLines,
    pub dexes: Words,
    pub heap: Option<(Addr, u32)>,
    pub frames: Option<u32>,
    pub steps: Option<u64>,
    pub main: Option<Units>,
    pub args: Args,
}

impl Draft {
    /// The draft of no line.
    pub fn new(alloc: Global) -> Draft
        ensures { result ≡ nothing_said }
    {
        Draft {
            images: ImageLines::new(alloc),
            dexes: Words::new(alloc),
            heap: None,
            frames: None,
            steps: None,
            main: None,
            args: Args::new(alloc),
        }
    }

    fn has_place(&self) -> bool
        ensures { result ≡ has_place self.now }
    {
        let (images, dexes) = (self.images.len(), self.dexes.len());
        images < 8 && dexes < 8 && images + dexes < 8
    }

    /// Adds an image line; false where it may not stand here.
    pub fn add_image(&mut self, job: &str, image: ImageLine) -> Result<bool, AllocError>
        ensures { Took (with_image job.now self.old image) self.new result }
    {
        if !self.has_place() || !self.dexes.is_empty() || self.heap.is_some() {
            return Ok(false);
        }
        if !names_apart(job, self.images.as_slice(), &image) {
            return Ok(false);
        }
        self.images.push(image)?;
        Ok(true)
    }

    /// Adds a DEX line; false where it may not stand here.
    pub fn add_dex(&mut self, alloc: Global, name: &str) -> Result<bool, AllocError>
        ensures { Took (with_dex self.old name.now) self.new result }
    {
        if !self.has_place() || self.heap.is_some() || !is_dex_name(name) {
            return Ok(false);
        }
        if is_img(self.images.as_slice(), name) {
            return Ok(false);
        }
        self.dexes.push(Word::from_str(alloc, name)?)?;
        Ok(true)
    }

    /// Adds the base and the bytes of the heap; false where they may not stand here.
    pub fn add_heap(&mut self, base: &str, bytes: &str) -> bool
        ensures { Adds (with_heap self.old base.now bytes.now) self.new result }
    {
        if (self.images.is_empty() && self.dexes.is_empty()) || self.heap.is_some() {
            return false;
        }
        let Some(base) = number_in(0, 4_294_967_295, base.as_bytes()) else {
            return false;
        };
        let Some(bytes) = number_in(16, 268_435_456, bytes.as_bytes()) else {
            return false;
        };
        self.heap = Some((Addr(base as u32), bytes as u32));
        true
    }

    /// Adds the words of the frames; false where they may not stand here.
    pub fn add_frames(&mut self, words: &str) -> bool
        ensures { Adds (with_frames self.old words.now) self.new result }
    {
        if self.heap.is_none() || self.frames.is_some() {
            return false;
        }
        let Some(words) = number_in(16, 16_777_216, words.as_bytes()) else {
            return false;
        };
        self.frames = Some(words as u32);
        true
    }

    /// Adds the steps; false where they may not stand here.
    pub fn add_steps(&mut self, steps: &str) -> bool
        ensures { Adds (with_steps self.old steps.now) self.new result }
    {
        if self.frames.is_none() || self.steps.is_some() {
            return false;
        }
        let Some(steps) = number_in(0, 1_000_000_000_000, steps.as_bytes()) else {
            return false;
        };
        self.steps = Some(steps);
        true
    }

    /// Adds the main class; false where it may not stand here.
    pub fn add_main(&mut self, alloc: Global, name: &str) -> Result<bool, AllocError>
        ensures { Took (with_main self.old name.now) self.new result }
    {
        if self.steps.is_none() || self.main.is_some() || name.is_empty() {
            return Ok(false);
        }
        self.main = Some(units_of(alloc, name)?);
        Ok(true)
    }

    /// Adds an argument; false where it may not stand here.
    pub fn add_arg(&mut self, alloc: Global, text: &str) -> Result<bool, AllocError>
        ensures { Took (with_arg self.old text.now) self.new result }
    {
        if self.main.is_none() || self.args.len() >= 64 {
            return Ok(false);
        }
        self.args.push(units_of(alloc, text)?)?;
        Ok(true)
    }

    /// The whole job, None where a line is wanting.
    pub fn whole(self) -> Option<Job>
        ensures { result ≡ whole_job self }
    {
        let (heap, bytes) = self.heap?;
        let frames = self.frames?;
        let steps = self.steps?;
        let main = self.main?;
        Some(Job {
            images: self.images,
            dexes: self.dexes,
            heap,
            bytes,
            frames,
            steps,
            main,
            args: self.args,
        })
    }
}
