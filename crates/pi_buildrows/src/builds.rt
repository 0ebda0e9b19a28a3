// Files that the classes of programs are written to. Beside the rows on files, each of which is a program of its own:
//
//   case                     no program
//
// a program that is described, behind those of the files; numbers name entries by their places:
//
//   name TEXT                a name
//   names COUNT              so many more names, each with four units of its own
//   value KIND NUMBER        what the next field is set to: word, long, text or type
//   field NAME TYPE FLAGS    a field of the next class
//   line AT UNITS KIND ..    an instruction of the next code: nop, void, string NAME, type NAME, switch KEY TO KEY TO ..
//   catch FROM TO AT TYPE    a handler of the next code; without a type one that catches the rest
//   code REGS INS OUTS UNITS the code of the next method
//   keys AT ..               the switches of the next method that are written with all their keys
//   method NAME RESULT FLAGS PARAM ..  a method of the next class
//   faces COUNT              the last so many names are interfaces of the next class
//   parent NAME              the superclass of the next class
//   class NAME FLAGS         a class with what these rows said before it
//
// and of all classes of all programs, in order:
//
//   write                    the length and the digest of the file that says them, or why there is none
//   build                    that there is one, or why there is none
//   read                     whether that file is accepted, or the number of the rule that it breaks
//   again                    whether the classes that the file says are written as the same bytes
use crate::building::{build, programs};
use crate::described::Described;
use pi_bytes::numbers::MOST_BYTES;
use pi_dex::{DexFault, append};
use pi_model::listed::Listed;
use pi_model::prog::Prog;
use pi_rows::fault::Fault;
use pi_rows::files::{Named, follow_file};
use pi_rows::follow::Subject;
use pi_rows::told::Told;
use std::alloc::Global;

/// The programs that rows have described, and the file that was written last.
#[derive(Drop)]
pub struct Builds {
    files: Vec<Named>,
    described: Described,
    file: Vec<u8>,
}

impl Builds {
    pub fn new(alloc: Global) -> Builds {
        Builds {
            files: Vec::new(alloc),
            described: Described::new(alloc),
            file: Vec::new(alloc),
        }
    }

    /// Writes the classes of all programs.
    fn write(&mut self, told: &mut Told, alloc: Global, verb: &str) -> Result<(), Fault> {
        self.file = Vec::new(alloc);
        let described = self.described.take(alloc);
        let (progs, keys) = programs(alloc, self.files.as_slice(), described)?;
        match build(alloc, progs.as_slice(), keys.as_slice())? {
            Ok(file) => self.file = file,
            Err(why) => return told.value(&why),
        }
        if verb == "build" {
            return told.words("ok");
        }
        told.words("ok, ")?;
        told.digest(self.file.as_slice())
    }
}

impl Subject for Builds {
    fn follow(
        &mut self,
        rt: &HostRuntime,
        verb: &str,
        rest: &str,
        told: &mut Told,
    ) -> Result<(), Fault> {
        let alloc = rt.alloc();
        match verb {
            "case" => {
                *self = Builds::new(alloc);
                Ok(())
            }
            "write" | "build" => self.write(told, alloc, verb),
            "read" => add_read(told, alloc, self.file.as_slice()),
            "again" => add_again(told, alloc, self.file.as_slice()),
            "file" | "put" | "cut" | "zeros" | "fill" | "length" | "sign" | "sum" => {
                follow_file(rt, &mut self.files, verb, rest)
            }
            _ => self.described.follow(alloc, verb, rest),
        }
    }
}

/// Adds whether a file is accepted.
fn add_read(told: &mut Told, alloc: Global, file: &[u8]) -> Result<(), Fault> {
    if file.len() > MOST_BYTES {
        return Err(Fault::NoRow);
    }
    let mut prog = Prog::new(alloc);
    match append(alloc, &mut prog, file) {
        Ok(()) => told.words("accepted"),
        Err(DexFault::Rule { rule, .. }) => {
            told.words("rule ")?;
            told.value(&rule)
        }
        Err(fault) => told.value(&fault),
    }
}

/// Adds whether the classes that a file says are written as the same bytes.
fn add_again(told: &mut Told, alloc: Global, file: &[u8]) -> Result<(), Fault> {
    if file.len() > MOST_BYTES {
        return Err(Fault::NoRow);
    }
    let mut prog = Prog::new(alloc);
    if append(alloc, &mut prog, file).is_err() {
        return Err(Fault::NoRow);
    }
    match build(alloc, &[prog], &[Listed::new(alloc)])? {
        Ok(again) => told.words(if again.as_slice() == file {
            "the same"
        } else {
            "another"
        }),
        Err(why) => told.value(&why),
    }
}
