// Fields and methods, added behind the things that they are made of.

ghost use Rattle.std.specs.Prelude.{◌≡◌, ◌<◌, length, IfOk, OnOk, IsTrue};
ghost use Rattle.pi_model.specs.Uses.{field_ref_below, names_below};
ghost use Rattle.pi_contents.specs.Named.{text_in, field_name, prototype};
ghost use Rattle.pi_dexpools.specs.Gathered.{with_field, field_place, with_method, method_place, IsGrown};

use crate::added::units_of;
use crate::gathered::MemberParts;
use crate::pools::Pools;
use pi_model::insn::FieldRef;
use pi_model::numbers::NameNo;
use pi_model::prog::Prog;
use std::alloc::{AllocError, Global};

impl Pools {
    /// Adds a field, and tells where it stands.
    #[tactic(auto, using(crate::proofs::Grown::grown_trans, crate::proofs::Grown::grown_refl))]
    pub(crate) fn add_field(
        &mut self,
        alloc: Global,
        prog: &Prog,
        field: &FieldRef,
    ) -> Result<u32, AllocError>
        requires { IsTrue (field_ref_below (length prog.now.names) field.now) }
        ensures gathered { OnOk result (self.new ≡ with_field self.old (field_name (text_in prog.now) field.now)) }
        ensures place { IfOk result (λ place. place ≡ field_place self.new (field_name (text_in prog.now) field.now)) }
        ensures grown { IsGrown self.old self.new }
    {
        let class = match self.add_type(alloc, units_of(prog, field.class)) {
            Ok(class) => class,
            Err(e) => return Err(e),
        };
        let name = match self.add_text(alloc, units_of(prog, field.name)) {
            Ok(name) => name,
            Err(e) => return Err(e),
        };
        let kind = match self.add_type(alloc, units_of(prog, field.ty)) {
            Ok(kind) => kind,
            Err(e) => return Err(e),
        };
        self.add_field_of(MemberParts { class, name, kind })
    }

    /// Adds a method, and tells where it stands.
    #[tactic(auto, using(crate::proofs::Grown::grown_trans, crate::proofs::Grown::grown_refl))]
    pub(crate) fn add_method(
        &mut self,
        alloc: Global,
        prog: &Prog,
        class: NameNo,
        name: NameNo,
        params: &[NameNo],
        ret: NameNo,
    ) -> Result<u32, AllocError>
        requires class { class.0 < length prog.now.names }
        requires name { name.0 < length prog.now.names }
        requires params { IsTrue (names_below (length prog.now.names) params.now) }
        requires ret { ret.0 < length prog.now.names }
        ensures gathered { OnOk result (self.new ≡ with_method self.old (record { class = text_in prog.now class; name = text_in prog.now name; proto = prototype (text_in prog.now) params.now ret })) }
        ensures place { IfOk result (λ place. place ≡ method_place self.new (record { class = text_in prog.now class; name = text_in prog.now name; proto = prototype (text_in prog.now) params.now ret })) }
        ensures grown { IsGrown self.old self.new }
    {
        let class = match self.add_type(alloc, units_of(prog, class)) {
            Ok(class) => class,
            Err(e) => return Err(e),
        };
        let name = match self.add_text(alloc, units_of(prog, name)) {
            Ok(name) => name,
            Err(e) => return Err(e),
        };
        let kind = match self.add_proto(alloc, prog, params, ret) {
            Ok(kind) => kind,
            Err(e) => return Err(e),
        };
        self.add_method_of(MemberParts { class, name, kind })
    }
}
