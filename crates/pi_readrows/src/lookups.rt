// Look-ups in a program. Beside the rows on files:
//
//   case                  begins anew with no files and the program of none
//   program               the program of the files, one behind the other, and how many of each kind it has
//   first-file            the program of the file that each chain begins with, and the same
//   name NUMBER           a name by its number
//   find-name TEXT        a name by its text
//   find-each             how many names are found under their own numbers
//   type NUMBER           the name of a type
//   find-type NAME        the type of a name
//   class NUMBER          the file, name, members and superclass of a class
//   find-class NAME       the class of a name
//   method NUMBER         the class of a method, and its place there
//   field NUMBER          the class of a field, and its place there
//   method-no CLASS PLACE the number of the method at a place
//   field-no CLASS PLACE  the number of the field at a place
//   own-field CLASS NAME TYPE    the place of a field of that name and type in the class's own list
//   names-to FILE         how many names the files up to this one have
//   types FILE            the types of a file
//   same TEXT TEXT        the first text, and whether the second is the same
//
// Where there is no such number the answer is none.
use crate::chain::{add_sizes, program};
use crate::numbered::add_numbered;
use pi_model::listed::Units;
use pi_model::numbers::NameNo;
use pi_model::prog::Prog;
use pi_model::texts::{same_text, text_of};
use pi_rows::fault::Fault;
use pi_rows::files::{Named, follow_file};
use pi_rows::follow::Subject;
use pi_rows::told::Told;
use pi_rows::words::{halves, text_of as bytes_of_text};
use pi_small::core;
use std::alloc::Global;

/// The files that rows have described, and the program of them.
#[derive(Drop)]
pub struct Lookups {
    files: Vec<Named>,
    prog: Prog,
}

impl Lookups {
    pub fn new(alloc: Global) -> Lookups {
        Lookups {
            files: Vec::new(alloc),
            prog: Prog::new(alloc),
        }
    }

    /// Makes the program of the files.
    fn make(&mut self, told: &mut Told, alloc: Global) -> Result<(), Fault> {
        match program(alloc, self.files.as_slice()) {
            Ok(prog) => {
                self.prog = prog;
                add_sizes(told, &self.prog)
            }
            Err(fault) => told.value(&fault),
        }
    }

    /// Takes the program of the file that each chain begins with.
    fn take_first(&mut self, told: &mut Told, alloc: Global) -> Result<(), Fault> {
        self.prog = core(alloc)?;
        add_sizes(told, &self.prog)
    }
}

impl Subject for Lookups {
    fn follow(
        &mut self,
        rt: &HostRuntime,
        verb: &str,
        rest: &str,
        told: &mut Told,
    ) -> Result<(), Fault> {
        let alloc = rt.alloc();
        match verb {
            "case" => {
                *self = Lookups::new(alloc);
                Ok(())
            }
            "program" => self.make(told, alloc),
            "first-file" => self.take_first(told, alloc),
            "find-each" => find_each(told, &self.prog),
            "find-name" => find_name(told, alloc, &self.prog, rest),
            "same" => compare(told, alloc, rest),
            _ => match follow_file(rt, &mut self.files, verb, rest) {
                Err(Fault::NoRow) => add_numbered(told, alloc, &self.prog, verb, rest),
                other => other,
            },
        }
    }
}

/// The units of a text in a row, whose bytes are units.
fn units_of(alloc: Global, text: &str) -> Result<Units, Fault> {
    let bytes = bytes_of_text(alloc, text)?;
    Ok(text_of(alloc, bytes.as_slice())?)
}

fn find_name(told: &mut Told, alloc: Global, prog: &Prog, text: &str) -> Result<(), Fault> {
    match prog.find_name(units_of(alloc, text)?.as_slice()) {
        Some(name) => told.value(&name.0),
        None => told.words("none"),
    }
}

/// Looks each name up by its text.
fn find_each(told: &mut Told, prog: &Prog) -> Result<(), Fault> {
    let mut found: u32 = 0;
    for n in 0..prog.names() {
        let name = NameNo(n);
        if prog.find_name(prog.name(name).as_slice()) == Some(name) {
            found = found.wrapping_add(1);
        }
    }
    told.value(&found)?;
    told.words(" of ")?;
    told.value(&prog.names())
}

/// Tells a text, and whether another is the same.
fn compare(told: &mut Told, alloc: Global, rest: &str) -> Result<(), Fault> {
    let (a, b) = halves(rest)?;
    let (a, b) = (units_of(alloc, a)?, units_of(alloc, b)?);
    let mut text = Told::new(alloc);
    text.units(a.as_slice())?;
    told.short(text.as_str())?;
    told.words(" ")?;
    told.value(&same_text(a.as_slice(), b.as_slice()))
}
