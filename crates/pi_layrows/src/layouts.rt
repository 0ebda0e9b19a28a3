// Files that are written from tables. Numbers name entries by their places. Rows of tables:
//
//   case                           no table has an entry
//   string PIECE ..                a string: units of four digits each, COUNT*UNITS for so many copies of them, and A+B for a
//                                  number, which is four units
//   type STRING                    a type
//   proto SHORT RESULT TYPE ..     a prototype with its parameters
//   field CLASS TYPE NAME          a field
//   method CLASS PROTO NAME        a method
//   class TYPE FLAGS TYPE ..       a class with its interfaces, and with what these rows said before it:
//     parent TYPE                    its superclass
//     value KIND ARGUMENT NUMBER     a static value
//     static FIELD FLAGS             a static field
//     instance FIELD FLAGS           an instance field
//     direct METHOD FLAGS            a direct method, with the code that was said before it, if any
//     virtual METHOD FLAGS           a virtual method, the same
//   code REGISTERS INS OUTS        a code, with what these rows said before it:
//     units UNIT ..                  units
//     fill COUNT UNIT                so many equal units
//     range FROM SIZE LIST           a range with the number of its list of handlers
//     catch TYPE UNIT                a handler of the next list
//     list, list UNIT                a list of handlers; with a last one, which catches the rest
//
//   * ROW                          the row is kept
//   times COUNT                    the rows that were kept are followed so many times, one behind the other; of a number A+B
//                                  in them see words.rt
//
// and of the tables so far:
//
//   write                          the length and the digest of the file that they are written as, or why they are not
//   length                         its length alone
//   read                           whether that file is accepted, or the rule that it breaks
use crate::made::Made;
use pi_bytes::numbers::MOST_BYTES;
use pi_dex::append;
use pi_dexlay::write;
use pi_dextables::fits::is_writable;
use pi_model::prog::Prog;
use pi_rows::fault::Fault;
use pi_rows::follow::Subject;
use pi_rows::told::Told;
use pi_rows::words::halves;
use std::alloc::Global;
use std::mem;

/// Tables that rows have described, the rows that are kept, and the file that was written last.
#[derive(Drop)]
pub struct Layouts {
    made: Made,
    kept: Vec<String>,
    file: Vec<u8>,
}

impl Layouts {
    pub fn new(alloc: Global) -> Layouts {
        Layouts {
            made: Made::new(alloc),
            kept: Vec::new(alloc),
            file: Vec::new(alloc),
        }
    }

    /// Follows the rows that were kept so many times.
    fn repeat(&mut self, alloc: Global, times: u64) -> Result<(), Fault> {
        let rows = mem::replace(&mut self.kept, Vec::new(alloc));
        for time in 0..times {
            for row in &rows {
                let (verb, rest) = halves(row.as_str()).unwrap_or((row.as_str(), ""));
                self.made.follow(alloc, verb, rest, time)?;
            }
        }
        Ok(())
    }

    /// Writes the tables.
    fn write(&mut self, told: &mut Told, alloc: Global, verb: &str) -> Result<(), Fault> {
        self.file = Vec::new(alloc);
        if !is_writable(&self.made.tables) {
            return Err(Fault::NoRow);
        }
        match write(alloc, &self.made.tables) {
            Ok(file) => self.file = file,
            Err(fault) => return told.value(&fault),
        }
        told.words("ok, ")?;
        if verb == "write" {
            told.digest(self.file.as_slice())
        } else {
            told.value(&self.file.len())
        }
    }
}

impl Subject for Layouts {
    fn follow(
        &mut self,
        rt: &HostRuntime,
        verb: &str,
        rest: &str,
        told: &mut Told,
    ) -> Result<(), Fault> {
        let alloc = rt.alloc();
        match verb {
            "case" => *self = Layouts::new(alloc),
            "*" => {
                let row = String::from_str(alloc, rest)?;
                self.kept.push(row)?;
            }
            "times" => self.repeat(alloc, rest.parse::<u64>()?)?,
            "write" | "length" => self.write(told, alloc, verb)?,
            "read" => add_read(told, alloc, self.file.as_slice())?,
            _ => self.made.follow(alloc, verb, rest, 0)?,
        }
        Ok(())
    }
}

/// Adds whether a file is accepted.
fn add_read(told: &mut Told, alloc: Global, file: &[u8]) -> Result<(), Fault> {
    if file.len() > MOST_BYTES {
        return Err(Fault::NoRow);
    }
    let mut prog = Prog::new(alloc);
    match append(alloc, &mut prog, file) {
        Ok(()) => told.words("accepted"),
        Err(fault) => told.value(&fault),
    }
}
