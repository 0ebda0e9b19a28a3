// Texts of jobs and of selections. Beside the rows on texts, and those on files (the files of a program):
//
//   case                  no text, no files
//   job                   reads the text as that of a job with the name job, and tells what it says, or which line is wrong
//   select FILE           reads it as a selection of the classes of the file of that number, and tells their numbers
//   memory                tells the fault of too little memory
//
// A job is told as a line: its parts in the order of its text, texts in brackets, and - where no file selects classes.
use crate::chain::program;
use crate::texts::follow_text;
use pi_job::{ImageLine, Job, TextFault, Word, read_job, read_selection};
use pi_model::listed::Units;
use pi_model::numbers::FileNo;
use pi_rows::fault::Fault;
use pi_rows::files::{Named, follow_file};
use pi_rows::follow::Subject;
use pi_rows::told::Told;
use std::alloc::Global;
use std::fmt::Display;

/// The text and the files that rows have described.
#[derive(Drop)]
pub struct Jobs {
    text: Vec<u8>,
    files: Vec<Named>,
}

impl Jobs {
    pub fn new(alloc: Global) -> Jobs {
        Jobs {
            text: Vec::new(alloc),
            files: Vec::new(alloc),
        }
    }
}

impl Subject for Jobs {
    fn follow(
        &mut self,
        rt: &HostRuntime,
        verb: &str,
        rest: &str,
        told: &mut Told,
    ) -> Result<(), Fault> {
        let alloc = rt.alloc();
        match verb {
            "case" => {
                *self = Jobs::new(alloc);
                Ok(())
            }
            "job" => match read_job(alloc, "job", self.text.as_slice()) {
                Ok(job) => add_job(told, &job),
                Err(fault) => told.value(&fault),
            },
            "select" => {
                let file = FileNo(rest.parse::<u8>()?);
                add_selection(
                    told,
                    alloc,
                    self.files.as_slice(),
                    file,
                    self.text.as_slice(),
                )
            }
            "memory" => told.value(&TextFault::OutOfMemory),
            "text" | "repeat" => follow_text(alloc, &mut self.text, verb, rest),
            _ => follow_file(rt, &mut self.files, verb, rest),
        }
    }
}

/// Adds the classes of a file that a text selects.
fn add_selection(
    told: &mut Told,
    alloc: Global,
    files: &[Named],
    file: FileNo,
    text: &[u8],
) -> Result<(), Fault> {
    match program(alloc, files) {
        Ok(prog) => match read_selection(alloc, &prog, file, text) {
            Ok(classes) => told.debug(&classes.as_slice()),
            Err(fault) => told.value(&fault),
        },
        Err(fault) => told.value(&fault),
    }
}

/// Adds a job as a line.
fn add_job(told: &mut Told, job: &Job) -> Result<(), Fault> {
    add_images(told, job.images.as_slice())?;
    add_dexes(told, job.dexes.as_slice())?;
    add_number(told, "heap ", &job.heap.0)?;
    add_number(told, " ", &job.bytes)?;
    add_number(told, ", frames ", &job.frames)?;
    add_number(told, ", steps ", &job.steps)?;
    add_units(told, ", main ", &job.main)?;
    add_args(told, job.args.as_slice())
}

fn add_images(told: &mut Told, images: &[ImageLine]) -> Result<(), Fault> {
    for image in images {
        add_word(told, "image ", &image.dex)?;
        add_word(told, " ", &image.img)?;
        add_number(told, " ", &image.at.0)?;
        add_number(told, " ", &image.load.0)?;
        match &image.selection {
            Some(word) => add_word(told, " ", word)?,
            None => told.words(" -")?,
        }
        add_number(told, " ", &image.budget)?;
        told.words(", ")?;
    }
    Ok(())
}

fn add_dexes(told: &mut Told, dexes: &[Word]) -> Result<(), Fault> {
    for dex in dexes {
        add_word(told, "dex ", dex)?;
        told.words(", ")?;
    }
    Ok(())
}

fn add_args(told: &mut Told, args: &[Units]) -> Result<(), Fault> {
    for arg in args {
        add_units(told, ", arg ", arg)?;
    }
    Ok(())
}

fn add_number<T: Display>(told: &mut Told, words: &str, number: &T) -> Result<(), Fault> {
    told.words(words)?;
    told.value(number)
}

fn add_word(told: &mut Told, words: &str, word: &Word) -> Result<(), Fault> {
    told.words(words)?;
    told.words("[")?;
    told.bytes(word.as_str().as_bytes())?;
    told.words("]")
}

fn add_units(told: &mut Told, words: &str, units: &Units) -> Result<(), Fault> {
    told.words(words)?;
    told.words("[")?;
    told.units(units.as_slice())?;
    told.words("]")
}
