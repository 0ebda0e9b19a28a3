// What files say. Beside the rows on files:
//
//   case                       no files
//   read                       the files up to the first that is refused, one behind the other: the rule that it breaks and the
//                              size of the program, or where no file is refused all its types, classes and names too
//
// and of the last file, which may have 16 MiB:
//
//   raw                        the first rule on tables that is broken, or the sizes of the tables, the digest of the bytes, and
//                              all strings and entries that are lent
//   sizes                      the sizes of the tables alone, and how many bytes and units all strings have
//   members                    the members and the values of all classes, and where the rules on them are broken; of a file
//                              whose tables break a rule that
//   flags NUMBER               what the flags of a number say
//   item PLACE WORDS           the code item at a place: whether it holds for a method with so many argument words, its head,
//                              its ranges, its handlers, and the pieces that its units are
//   list PLACE AT              the list of handlers of a code item that stands at another place
//   piece PLACE UNIT           the piece at a unit of a code item
//   payload PLACE UNIT DIST    the payload so far from a unit
//   says PLACE                 the code that a code item says, where string k has the name 100 + k
//
// Of a code item a file of fewer than 112 bytes is not asked, nor for more than its row `item` one that is not in the file.
use crate::chain::{add_all, add_sizes, no_files};
use crate::code::follow_code;
use crate::members::{add_flags, add_members};
use crate::raw::{add_table_sizes, add_tables};
use pi_bytes::numbers::MOST_BYTES;
use pi_model::numbers::{ClassNo, FileNo, NameNo};
use pi_model::prog::Prog;
use pi_rows::fault::Fault;
use pi_rows::files::{Named, follow_file};
use pi_rows::follow::Subject;
use pi_rows::told::Told;
use std::alloc::Global;

/// The files that rows have described.
#[derive(Drop)]
pub struct Reader {
    files: Vec<Named>,
}

impl Reader {
    pub fn new(alloc: Global) -> Reader {
        Reader {
            files: Vec::new(alloc),
        }
    }

    /// The bytes of the last file.
    fn last(&self) -> Result<&[u8], Fault> {
        match self.files.last() {
            Some(file) => Ok(file.bytes.as_slice()),
            None => Err(Fault::NoRow),
        }
    }
}

impl Subject for Reader {
    fn follow(
        &mut self,
        rt: &HostRuntime,
        verb: &str,
        rest: &str,
        told: &mut Told,
    ) -> Result<(), Fault> {
        let alloc = rt.alloc();
        match verb {
            "case" => {
                *self = Reader::new(alloc);
                Ok(())
            }
            "read" => add_program(told, alloc, self.files.as_slice()),
            "flags" => add_flags(told, rest.parse::<u32>()?),
            "raw" | "sizes" | "members" | "item" | "list" | "piece" | "payload" | "says" => {
                ask(told, alloc, self.last()?, verb, rest)
            }
            _ => follow_file(rt, &mut self.files, verb, rest),
        }
    }
}

/// Follows a row on a file.
fn ask(told: &mut Told, alloc: Global, file: &[u8], verb: &str, rest: &str) -> Result<(), Fault> {
    if file.len() > MOST_BYTES {
        return Err(Fault::NoRow);
    }
    match verb {
        "raw" => add_tables(told, alloc, file),
        "sizes" => add_table_sizes(told, alloc, file),
        "members" => add_members(told, alloc, file),
        _ => follow_code(told, alloc, file, verb, rest),
    }
}

/// Adds what files say behind each other.
fn add_program(told: &mut Told, alloc: Global, files: &[Named]) -> Result<(), Fault> {
    let mut prog = no_files(alloc);
    match add_all(alloc, &mut prog, files) {
        Ok(()) => {
            add_sizes(told, &prog)?;
            add_types(told, &prog)?;
            add_classes(told, &prog)?;
            add_names(told, &prog)
        }
        Err(fault) => {
            told.value(&fault)?;
            told.line()?;
            add_sizes(told, &prog)
        }
    }
}

fn add_types(told: &mut Told, prog: &Prog) -> Result<(), Fault> {
    for f in 0..prog.files() {
        told.line_of("types of file", &f)?;
        told.words(": ")?;
        told.debug(prog.types(FileNo(f)))?;
    }
    Ok(())
}

fn add_classes(told: &mut Told, prog: &Prog) -> Result<(), Fault> {
    for c in 0..prog.classes() {
        told.line()?;
        told.debug(prog.class(ClassNo(c)))?;
    }
    Ok(())
}

fn add_names(told: &mut Told, prog: &Prog) -> Result<(), Fault> {
    for n in 0..prog.names() {
        told.line_of("name", &n)?;
        told.words(" ")?;
        told.units(prog.name(NameNo(n)).as_slice())?;
    }
    Ok(())
}
