// Tables that rows make.
use crate::words::{numbers_at, string_at};
use pi_dextables::tables::{
    Body, Catch, Catches, Class, FieldRow, Member, MethodRow, Proto, Range, Tables, Value,
};
use pi_model::listed::{Listed, Texts, Units};
use pi_rows::fault::Fault;
use std::alloc::Global;
use std::mem;

/// The tables so far, and what the next class, code, method and list of handlers have.
#[derive(Drop)]
pub(crate) struct Made {
    pub tables: Tables,
    class: Class,
    body: Body,
    code: Option<Body>,
    typed: Listed<Catch>,
}

impl Made {
    pub(crate) fn new(alloc: Global) -> Made {
        Made {
            tables: no_tables(alloc),
            class: no_class(alloc),
            body: no_body(alloc),
            code: None,
            typed: Listed::new(alloc),
        }
    }

    /// Follows a row.
    pub(crate) fn follow(
        &mut self,
        alloc: Global,
        verb: &str,
        rest: &str,
        time: u64,
    ) -> Result<(), Fault> {
        if verb == "string" {
            let string = string_at(alloc, rest, time)?;
            self.tables.strings.push(string)?;
            return Ok(());
        }
        let numbers = numbers_at(alloc, rest, time)?;
        match verb {
            "type" | "proto" | "field" | "method" => {
                add_entry(alloc, &mut self.tables, verb, numbers.as_slice())
            }
            "value" | "parent" | "static" | "instance" => {
                add_to_class(&mut self.class, verb, numbers.as_slice())
            }
            "direct" | "virtual" => {
                let code = self.code.take();
                add_method(&mut self.class, verb, numbers.as_slice(), code)
            }
            "class" => self.end_class(alloc, numbers.as_slice()),
            "catch" => self.add_catch(numbers.as_slice()),
            "list" => self.end_list(alloc, numbers.as_slice()),
            "code" => self.end_code(alloc, numbers.as_slice()),
            _ => add_to_body(&mut self.body, verb, numbers.as_slice()),
        }
    }

    fn end_class(&mut self, alloc: Global, numbers: &[u64]) -> Result<(), Fault> {
        let [ty, flags, faces @ ..] = numbers else {
            return Err(Fault::NoRow);
        };
        let mut class = mem::replace(&mut self.class, no_class(alloc));
        class.class = half(*ty)?;
        class.flags = word(*flags)?;
        class.faces = halves(alloc, faces)?;
        self.tables.classes.push(class)?;
        Ok(())
    }

    fn add_catch(&mut self, numbers: &[u64]) -> Result<(), Fault> {
        let [ty, to] = numbers else {
            return Err(Fault::NoRow);
        };
        let handler = Catch {
            ty: half(*ty)?,
            to: word(*to)?,
        };
        self.typed.push(handler)?;
        Ok(())
    }

    fn end_list(&mut self, alloc: Global, numbers: &[u64]) -> Result<(), Fault> {
        let last = match numbers {
            [] => None,
            [to] => Some(word(*to)?),
            _ => return Err(Fault::NoRow),
        };
        let typed = mem::replace(&mut self.typed, Listed::new(alloc));
        self.body.lists.push(Catches { typed, last })?;
        Ok(())
    }

    fn end_code(&mut self, alloc: Global, numbers: &[u64]) -> Result<(), Fault> {
        let [registers, ins, outs] = numbers else {
            return Err(Fault::NoRow);
        };
        let mut body = mem::replace(&mut self.body, no_body(alloc));
        body.registers = half(*registers)?;
        body.ins = half(*ins)?;
        body.outs = half(*outs)?;
        self.code = Some(body);
        Ok(())
    }
}

fn no_tables(alloc: Global) -> Tables {
    Tables {
        strings: Texts::new(alloc),
        types: Listed::new(alloc),
        protos: Listed::new(alloc),
        fields: Listed::new(alloc),
        methods: Listed::new(alloc),
        classes: Listed::new(alloc),
    }
}

fn no_class(alloc: Global) -> Class {
    Class {
        class: 0,
        flags: 0,
        parent: None,
        faces: Units::new(alloc),
        values: Listed::new(alloc),
        statics: Listed::new(alloc),
        instances: Listed::new(alloc),
        directs: Listed::new(alloc),
        virtuals: Listed::new(alloc),
    }
}

fn no_body(alloc: Global) -> Body {
    Body {
        registers: 0,
        ins: 0,
        outs: 0,
        units: Units::new(alloc),
        ranges: Listed::new(alloc),
        lists: Listed::new(alloc),
    }
}

fn half(number: u64) -> Result<u16, Fault> {
    Ok(u16::try_from(number)?)
}

fn word(number: u64) -> Result<u32, Fault> {
    Ok(u32::try_from(number)?)
}

fn halves(alloc: Global, numbers: &[u64]) -> Result<Units, Fault> {
    let mut list = Units::new(alloc);
    for number in numbers {
        list.push(half(*number)?)?;
    }
    Ok(list)
}

/// Adds an entry of a table.
fn add_entry(alloc: Global, tables: &mut Tables, verb: &str, numbers: &[u64]) -> Result<(), Fault> {
    match (verb, numbers) {
        ("type", [string]) => tables.types.push(word(*string)?)?,
        ("proto", [short, ret, params @ ..]) => {
            let proto = Proto {
                short: word(*short)?,
                ret: half(*ret)?,
                params: halves(alloc, params)?,
            };
            tables.protos.push(proto)?;
        }
        ("field", [class, kind, name]) => {
            let field = member(*class, *kind, *name)?;
            tables.fields.push(field)?;
        }
        ("method", [class, kind, name]) => {
            let method = member(*class, *kind, *name)?;
            tables.methods.push(method)?;
        }
        _ => return Err(Fault::NoRow),
    }
    Ok(())
}

fn member(class: u64, kind: u64, name: u64) -> Result<Member, Fault> {
    Ok(Member {
        class: half(class)?,
        kind: half(kind)?,
        name: word(name)?,
    })
}

/// Adds to what the next class has.
fn add_to_class(class: &mut Class, verb: &str, numbers: &[u64]) -> Result<(), Fault> {
    match (verb, numbers) {
        ("value", [kind, arg, number]) => {
            let value = Value {
                kind: u8::try_from(*kind)?,
                arg: u8::try_from(*arg)?,
                number: *number,
            };
            class.values.push(value)?;
        }
        ("parent", [ty]) => class.parent = Some(half(*ty)?),
        ("static", [id, flags]) => {
            let field = field_row(*id, *flags)?;
            class.statics.push(field)?;
        }
        ("instance", [id, flags]) => {
            let field = field_row(*id, *flags)?;
            class.instances.push(field)?;
        }
        _ => return Err(Fault::NoRow),
    }
    Ok(())
}

fn field_row(id: u64, flags: u64) -> Result<FieldRow, Fault> {
    Ok(FieldRow {
        id: word(id)?,
        flags: word(flags)?,
    })
}

/// Adds a method with its code to what the next class has.
fn add_method(
    class: &mut Class,
    verb: &str,
    numbers: &[u64],
    code: Option<Body>,
) -> Result<(), Fault> {
    let [id, flags] = numbers else {
        return Err(Fault::NoRow);
    };
    let method = MethodRow {
        id: word(*id)?,
        flags: word(*flags)?,
        code,
    };
    if verb == "direct" {
        class.directs.push(method)?;
    } else {
        class.virtuals.push(method)?;
    }
    Ok(())
}

/// Adds to what the next code has.
fn add_to_body(body: &mut Body, verb: &str, numbers: &[u64]) -> Result<(), Fault> {
    match (verb, numbers) {
        ("units", units) => {
            for unit in units {
                body.units.push(half(*unit)?)?;
            }
        }
        ("fill", [count, unit]) => {
            let unit = half(*unit)?;
            for _ in 0..*count {
                body.units.push(unit)?;
            }
        }
        ("range", [from, size, list]) => {
            let range = Range {
                from: word(*from)?,
                size: half(*size)?,
                list: word(*list)?,
            };
            body.ranges.push(range)?;
        }
        _ => return Err(Fault::NoRow),
    }
    Ok(())
}
