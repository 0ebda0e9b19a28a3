// The tables of a file. Numbers are places in the tables above them: a type is the number of a string, a prototype names
// a string and types, and so on down to the code of a method.

ghost use Rattle.std.specs.Prelude.{◌≡◌};

use pi_model::listed::{Listed, Texts, Units};

/// A prototype: the string of its short form, the type of its result, the types of its parameters.
#[derive(Debug, Drop)]
pub struct Proto {
    pub short: u32,
    pub ret: u16,
    pub params: Units,
}

/// A field or a method: its class, its type or its prototype, and the string of its name.
#[derive(Clone, Copy, Debug)]
pub struct Member {
    pub class: u16,
    pub kind: u16,
    pub name: u32,
}

/// An encoded value: its kind, its argument, and the number in the bytes behind. Null and booleans have no bytes, any
/// other value has one more than its argument.
#[derive(Clone, Copy, Debug)]
pub struct Value {
    pub kind: u8,
    pub arg: u8,
    pub number: u64,
}

/// A handler: the type that it catches, and the unit where it begins.
#[derive(Clone, Copy, Debug)]
pub struct Catch {
    pub ty: u16,
    pub to: u32,
}

/// A list of handlers: those that catch a type, and the unit of the one that catches the rest.
#[derive(Debug, Drop)]
pub struct Catches {
    pub typed: Listed<Catch>,
    pub last: Option<u32>,
}

/// A range of units with handlers: its first unit, how many it has, and the number of its list.
#[derive(Clone, Copy, Debug)]
pub struct Range {
    pub from: u32,
    pub size: u16,
    pub list: u32,
}

/// The code of a method. Each list of handlers stands once, in the order in which ranges first name them.
#[derive(Debug, Drop)]
pub struct Body {
    pub registers: u16,
    pub ins: u16,
    pub outs: u16,
    pub units: Units,
    pub ranges: Listed<Range>,
    pub lists: Listed<Catches>,
}

/// A field that a class lists, with its flags.
#[derive(Clone, Copy, Debug)]
pub struct FieldRow {
    pub id: u32,
    pub flags: u32,
}

/// A method that a class lists, with its flags and its code.
#[derive(Debug, Drop)]
pub struct MethodRow {
    pub id: u32,
    pub flags: u32,
    pub code: Option<Body>,
}

/// A class: its type, its flags, its superclass, its interfaces, the values of its first static fields, and its members.
#[derive(Debug, Drop)]
pub struct Class {
    pub class: u16,
    pub flags: u32,
    pub parent: Option<u16>,
    pub faces: Units,
    pub values: Listed<Value>,
    pub statics: Listed<FieldRow>,
    pub instances: Listed<FieldRow>,
    pub directs: Listed<MethodRow>,
    pub virtuals: Listed<MethodRow>,
}

/// A whole file.
#[derive(Debug, Drop)]
pub struct Tables {
    pub strings: Texts,
    pub types: Listed<u32>,
    pub protos: Listed<Proto>,
    pub fields: Listed<Member>,
    pub methods: Listed<Member>,
    pub classes: Listed<Class>,
}
