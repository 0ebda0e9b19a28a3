// A program that rows describe.
use crate::building::Keys;
use crate::classes::Parts;
use pi_model::describe::Classes;
use pi_model::listed::{Listed, Texts, Units};
use pi_model::texts::text_of;
use pi_rows::fault::Fault;
use pi_rows::words::{numbers_of, text_of as bytes_of};
use std::alloc::Global;
use std::mem;

/// The names and the classes of a program, and the keys of its classes.
#[derive(Drop)]
pub(crate) struct Made {
    pub names: Texts,
    pub classes: Classes,
    pub keys: Listed<Keys>,
}

/// A program so far, and what its next class has.
#[derive(Drop)]
pub(crate) struct Described {
    made: Made,
    parts: Parts,
}

impl Described {
    pub(crate) fn new(alloc: Global) -> Described {
        Described {
            made: nothing_made(alloc),
            parts: Parts::new(alloc),
        }
    }

    /// The program, in the place of which none is left.
    pub(crate) fn take(&mut self, alloc: Global) -> Made {
        mem::replace(&mut self.made, nothing_made(alloc))
    }

    /// Follows a row.
    pub(crate) fn follow(&mut self, alloc: Global, verb: &str, rest: &str) -> Result<(), Fault> {
        match verb {
            "name" => {
                let bytes = bytes_of(alloc, rest)?;
                self.made.names.push(text_of(alloc, bytes.as_slice())?)?;
                Ok(())
            }
            "names" => self.add_names(alloc, rest.parse::<u32>()?),
            "faces" => {
                let count = self.made.names.len();
                self.parts.add_faces(count, rest.parse::<usize>()?)
            }
            "class" => self.end_class(alloc, rest),
            _ => self.parts.follow(alloc, verb, rest),
        }
    }

    /// Adds so many names, each with four units from 0x100 to 0x1ff.
    fn add_names(&mut self, alloc: Global, count: u32) -> Result<(), Fault> {
        for number in 0..count {
            let mut units = Units::new(alloc);
            for byte in number.to_be_bytes() {
                units.push(u16::from_be_bytes([1, byte]))?;
            }
            self.made.names.push(units)?;
        }
        Ok(())
    }

    fn end_class(&mut self, alloc: Global, rest: &str) -> Result<(), Fault> {
        let numbers = numbers_of::<u32>(alloc, rest)?;
        let [name, flags] = numbers.as_slice() else {
            return Err(Fault::NoRow);
        };
        let (class, keys) = self.parts.end(alloc, *name, *flags);
        self.made.classes.push(class)?;
        self.made.keys.push(keys)?;
        Ok(())
    }
}

fn nothing_made(alloc: Global) -> Made {
    Made {
        names: Texts::new(alloc),
        classes: Classes::new(alloc),
        keys: Listed::new(alloc),
    }
}
