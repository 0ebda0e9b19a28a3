// A file with the numbers of the names of its strings: what its types, fields and methods are called.

ghost use Rattle.std.specs.Prelude.{◌≡◌, ◌<◌, length, IfOk};
ghost use Rattle.std.specs.List.{All};
ghost use Rattle.pi_format.specs.Tables.{count_at, string_ids, type_ids, proto_ids, field_ids, method_ids};
ghost use Rattle.pi_format.specs.Says.Names.{string_name, type_name, type_names, field_ref, param_names, ret_name, method_ref};

use pi_dexraw::Raw;
use pi_model::insn::{FieldRef, MethodRef};
use pi_model::listed::Names;
use pi_model::numbers::NameNo;
use std::alloc::{AllocError, Global};
use std::marker::Model;

/// A file and the numbers of the names of its strings. Each number that is asked for is below the size of its table.
#[derive(Drop)]
pub struct Named<'a> {
    raw: &'a Raw<'a>,
    numbers: &'a [NameNo],
}

impl<'a> Model for Named<'a> {
    ghost use Rattle.std.specs.Prelude.{◌≡◌, length};
    ghost use Rattle.pi_format.specs.Tables.{count_at, string_ids};
    ghost use Rattle.pi_format.specs.Says.Names;

    ghost Value = { Names.Named };

    ghost view = { λ n. record { file = n.raw.now; numbers = n.numbers.now } };

    ghost invariant = { λ n. length n.numbers.now ≡ count_at n.raw.now string_ids };
}

impl<'a> Named<'a> {
    /// A file with a number for each of its strings.
    pub fn new(raw: &'a Raw<'a>, numbers: &'a [NameNo]) -> Named<'a>
        requires { length numbers.now ≡ count_at raw.now string_ids }
        ensures { result ≡ record { file = raw.now; numbers = numbers.now } }
    {
        Named { raw, numbers }
    }

    /// The raw of the file.
    pub fn raw(&self) -> &'a Raw<'a>
        ensures { result.now ≡ self.now.file }
    {
        self.raw
    }

    /// The name of a string.
    pub fn string_name(&self, i: u32) -> NameNo
        requires { i < count_at self.now.file string_ids }
        ensures { result ≡ string_name self.now i }
    {
        self.numbers[i as usize]
    }

    /// The name of a type's descriptor.
    pub fn type_name(&self, t: u32) -> NameNo
        requires { t < count_at self.now.file type_ids }
        ensures { result ≡ type_name self.now t }
    {
        self.string_name(self.raw().type_string(t))
    }

    /// The names of types.
    #[tactic(auto, using(crate::proofs::Mapped::map_goes, crate::proofs::Mapped::map_ends))]
    pub fn type_names(&self, alloc: Global, types: &[u16]) -> Result<Names, AllocError>
        requires { All (λ t. t < count_at self.now.file type_ids) types.now }
        ensures { IfOk result (λ names. names ≡ type_names self.now types.now) }
    {
        let mut names = Vec::new(alloc);
        for i in 0..types.len() {
            names.push(self.type_name(types[i] as u32))?;
        }
        Ok(Names::from_vec(names))
    }

    /// The field of a number: class, name and type.
    pub fn field_ref(&self, f: u32) -> FieldRef
        requires { f < count_at self.now.file field_ids }
        ensures { result ≡ field_ref self.now f }
    {
        let field = self.raw().field_entry(f);
        FieldRef {
            class: self.type_name(field.class),
            name: self.string_name(field.name),
            ty: self.type_name(field.kind),
        }
    }

    /// The types of a prototype's parameters.
    pub fn param_names(&self, alloc: Global, proto: u32) -> Result<Names, AllocError>
        requires { proto < count_at self.now.file proto_ids }
        ensures { IfOk result (λ names. names ≡ param_names self.now proto) }
    {
        let params = self.raw().params(alloc, proto)?;
        self.type_names(alloc, params.as_slice())
    }

    /// The type of a prototype's result.
    pub fn ret_name(&self, proto: u32) -> NameNo
        requires { proto < count_at self.now.file proto_ids }
        ensures { result ≡ ret_name self.now proto }
    {
        self.type_name(self.raw().proto_entry(proto).ret)
    }

    /// The method of a number: class, name and prototype.
    pub fn method_ref(&self, alloc: Global, m: u32) -> Result<MethodRef, AllocError>
        requires { m < count_at self.now.file method_ids }
        ensures { IfOk result (λ method. method ≡ method_ref self.now m) }
    {
        let method = self.raw().method_entry(m);
        let (class, name) = (method.class, method.name);
        let params = self.param_names(alloc, method.kind)?;
        Ok(MethodRef {
            class: self.type_name(class),
            name: self.string_name(name),
            params,
            ret: self.ret_name(method.kind),
        })
    }
}
