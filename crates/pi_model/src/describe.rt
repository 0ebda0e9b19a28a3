// What a program says of a class, its fields, its methods and their code: plain data that clauses match on.

ghost use Rattle.std.specs.Prelude.{◌≡◌, ◌<◌, ◌&&◌, length, position, IfSome};
ghost use Rattle.pi_model.specs.Program.{same_name};

use crate::insn::{FieldRef, Insn};
use crate::listed::{Listed, Names};
use crate::numbers::{FileNo, NameNo};

/// A class as its file defines it. A name is that of a descriptor; the flags are those of the file.
#[derive(Debug, Drop)]
pub struct ClassDesc {
    pub file: FileNo,
    pub name: NameNo,
    pub flags: u32,
    pub parent: Option<NameNo>,
    pub faces: Names,
    pub fields: Fields,
    pub methods: Methods,
}

impl ClassDesc {
    ghost use Rattle.std.specs.Prelude.{◌≡◌, ◌<◌, length, IfSome};
    ghost use Rattle.pi_model.specs.Search.{own_field};

    /// The place of a field of that name and type in the class's own list; its class is not looked at.
    pub fn own_field(&self, field: &FieldRef) -> Option<usize>
        ensures place { result ≡ own_field self.now field.now }
        ensures within { IfSome result (λ place. place < length self.now.fields) }
    {
        field_place(self.fields.as_slice(), field)
    }
}

/// A field, static or not as its flags say.
#[derive(Debug, Drop)]
pub struct FieldDesc {
    pub name: NameNo,
    pub ty: NameNo,
    pub flags: u32,
    pub init: Init,
}

fn field_place(fields: &[FieldDesc], field: &FieldRef) -> Option<usize>
    ensures place { result ≡ position (λ x. same_name x.name field.now.name && same_name x.ty field.now.ty) fields.now }
    ensures within { IfSome result (λ place. place < length fields.now) }
{
    fields
        .iter()
        .position(|own| own.name.0 == field.name.0 && own.ty.0 == field.ty.0)
}

/// What a static field is set to when its class is initialised. `Zero` leaves the field as it is.
#[derive(Clone, Copy, Debug, PartialEq, Eq)]
pub enum Init {
    Zero,
    Word(u32),
    Long(u64),
    Str(NameNo),
    Cls(NameNo),
}

/// A method; a native or abstract one has no code.
#[derive(Debug, Drop)]
pub struct MethodDesc {
    pub name: NameNo,
    pub params: Names,
    pub ret: NameNo,
    pub flags: u32,
    pub code: Option<Code>,
}

/// The code of a method. `units` is the length of the whole code in 16-bit units, payloads included; `ins` counts
/// the argument words, which arrive in the last registers.
#[derive(Debug, Drop)]
pub struct Code {
    pub regs: u16,
    pub ins: u16,
    pub outs: u16,
    pub units: u32,
    pub insns: Insns,
    pub tries: Tries,
}

/// An instruction at its address, with its length, both in units.
#[derive(Debug, Drop)]
pub struct Line {
    pub at: u32,
    pub units: u32,
    pub insn: Insn,
}

/// One entry of a handler table: from `from` up to, not including, `to`, a throwable that fits `ty` (None: any)
/// goes to the instruction at `at`.
#[derive(Clone, Copy, Debug, PartialEq, Eq)]
pub struct Catch {
    pub from: u32,
    pub to: u32,
    pub ty: Option<NameNo>,
    pub at: u32,
}

/// Classes in the order of their definitions.
pub type Classes = Listed<ClassDesc>;

/// The fields of a class, static ones first.
pub type Fields = Listed<FieldDesc>;

/// The methods of a class, direct ones first.
pub type Methods = Listed<MethodDesc>;

/// The instructions of a code by rising address; payloads are not among them.
pub type Insns = Listed<Line>;

/// The handler entries of a code in the order of search.
pub type Tries = Listed<Catch>;
