// The parts of a class that rows describe.
use crate::building::Keys;
use crate::codes::Lines;
use pi_model::describe::{ClassDesc, FieldDesc, Fields, Init, MethodDesc, Methods};
use pi_model::listed::{Listed, Names};
use pi_model::numbers::{FileNo, NameNo};
use pi_rows::fault::Fault;
use pi_rows::words::{halves, numbers_of};
use std::alloc::Global;
use std::mem;

/// What the next class has, the keys of its methods, and what its next field and its next method have.
#[derive(Drop)]
pub(crate) struct Parts {
    parent: Option<NameNo>,
    faces: Names,
    fields: Fields,
    methods: Methods,
    keys: Keys,
    value: Init,
    lines: Lines,
}

impl Parts {
    pub(crate) fn new(alloc: Global) -> Parts {
        Parts {
            parent: None,
            faces: Names::new(alloc),
            fields: Fields::new(alloc),
            methods: Methods::new(alloc),
            keys: Keys::new(alloc),
            value: Init::Zero,
            lines: Lines::new(alloc),
        }
    }

    /// Follows a row.
    pub(crate) fn follow(&mut self, alloc: Global, verb: &str, rest: &str) -> Result<(), Fault> {
        match verb {
            "value" => self.set_value(rest),
            "line" => self.lines.add_line(alloc, rest),
            _ => {
                let numbers = numbers_of::<u32>(alloc, rest)?;
                self.follow_numbers(alloc, verb, numbers.as_slice())
            }
        }
    }

    fn follow_numbers(&mut self, alloc: Global, verb: &str, numbers: &[u32]) -> Result<(), Fault> {
        match (verb, numbers) {
            ("parent", [name]) => {
                self.parent = Some(NameNo(*name));
                Ok(())
            }
            ("field", [name, ty, flags]) => self.add_field(*name, *ty, *flags),
            ("method", [name, ret, flags, params @ ..]) => {
                self.add_method(alloc, *name, *ret, *flags, params)
            }
            _ => self.lines.follow_numbers(alloc, verb, numbers),
        }
    }

    /// Adds the last so many of names as interfaces.
    pub(crate) fn add_faces(&mut self, names: usize, count: usize) -> Result<(), Fault> {
        let names = u32::try_from(names)?;
        let count = u32::try_from(count)?;
        for name in names.saturating_sub(count)..names {
            self.faces.push(NameNo(name))?;
        }
        Ok(())
    }

    fn set_value(&mut self, rest: &str) -> Result<(), Fault> {
        let (kind, number) = halves(rest)?;
        self.value = match kind {
            "word" => Init::Word(number.parse::<u32>()?),
            "long" => Init::Long(number.parse::<u64>()?),
            "text" => Init::Str(NameNo(number.parse::<u32>()?)),
            "type" => Init::Cls(NameNo(number.parse::<u32>()?)),
            _ => return Err(Fault::NoRow),
        };
        Ok(())
    }

    fn add_field(&mut self, name: u32, ty: u32, flags: u32) -> Result<(), Fault> {
        let init = mem::replace(&mut self.value, Init::Zero);
        let field = FieldDesc {
            name: NameNo(name),
            ty: NameNo(ty),
            flags,
            init,
        };
        self.fields.push(field)?;
        Ok(())
    }

    fn add_method(
        &mut self,
        alloc: Global,
        name: u32,
        ret: u32,
        flags: u32,
        params: &[u32],
    ) -> Result<(), Fault> {
        let mut list = Names::new(alloc);
        for param in params {
            list.push(NameNo(*param))?;
        }
        let (code, keys) = self.lines.end(alloc);
        let method = MethodDesc {
            name: NameNo(name),
            params: list,
            ret: NameNo(ret),
            flags,
            code,
        };
        self.methods.push(method)?;
        self.keys.push(keys)?;
        Ok(())
    }

    /// The class, in the place of which nothing is left.
    pub(crate) fn end(&mut self, alloc: Global, name: u32, flags: u32) -> (ClassDesc, Keys) {
        let parts = mem::replace(self, Parts::new(alloc));
        let class = ClassDesc {
            file: FileNo(0),
            name: NameNo(name),
            flags,
            parent: parts.parent,
            faces: parts.faces,
            fields: parts.fields,
            methods: parts.methods,
        };
        (class, parts.keys)
    }
}
