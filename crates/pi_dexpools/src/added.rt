// What is added behind the things that it is made of: types, and prototypes.

ghost use Rattle.std.specs.Prelude.{◌≡◌, ◌<◌, ◌++◌, ◌∷◌, [], length, map, IfOk, OnOk, IsTrue};
ghost use Rattle.pi_format.specs.Rules.Descriptors.{short_letter};
ghost use Rattle.pi_model.specs.Uses.{names_below};
ghost use Rattle.pi_contents.specs.Named.{text_in, prototype};
ghost use Rattle.pi_contents.specs.Naming.{short_form};
ghost use Rattle.pi_dexpools.specs.Gathered.{with_type, with_types, type_place, with_proto, proto_place, IsGrown};
ghost use Rattle.pi_dexpools.specs.There.{HasType};

use crate::gathered::ProtoParts;
use crate::pools::Pools;
use pi_model::listed::Listed;
use pi_model::numbers::NameNo;
use pi_model::prog::Prog;
use std::alloc::{AllocError, Global};

/// The units of a name.
pub(crate) fn units_of(prog: &Prog, name: NameNo) -> &[u16]
    requires { name.0 < length prog.now.names }
    ensures { result.now ≡ text_in prog.now name }
{
    prog.name(name).as_slice()
}

/// The letter of a type in a short form.
fn letter(units: &[u16]) -> u16
    ensures { result ≡ short_letter units.now }
{
    match units {
        [] => 0,
        [91, ..] => 76,
        [first, ..] => *first,
    }
}

/// Puts the letters of parameters behind that of a result.
fn put_letters(letters: &mut Vec<u16>, prog: &Prog, params: &[NameNo]) -> Result<(), AllocError>
    requires { IsTrue (names_below (length prog.now.names) params.now) }
    ensures { OnOk result (letters.new.items ≡ letters.old.items ++ map short_letter (map (text_in prog.now) params.now)) }
{
    for i in 0..params.len() {
        letters.push(letter(units_of(prog, params[i])))?;
    }
    Ok(())
}

/// The short form of a prototype.
fn short_form_of(
    alloc: Global,
    prog: &Prog,
    params: &[NameNo],
    ret: NameNo,
) -> Result<Vec<u16>, AllocError>
    requires params { IsTrue (names_below (length prog.now.names) params.now) }
    requires ret { ret.0 < length prog.now.names }
    ensures { IfOk result (λ units. units.items ≡ short_form (prototype (text_in prog.now) params.now ret)) }
{
    let mut letters = Vec::new(alloc);
    letters.push(letter(units_of(prog, ret)))?;
    put_letters(&mut letters, prog, params)?;
    Ok(letters)
}

impl Pools {
    /// Adds the type of those units, and tells where it stands.
    #[tactic(auto, using(crate::proofs::There::type_there, crate::proofs::Grown::grown_trans))]
    pub(crate) fn add_type(&mut self, alloc: Global, units: &[u16]) -> Result<u32, AllocError>
        ensures gathered { OnOk result (self.new ≡ with_type self.old units.now) }
        ensures place { IfOk result (λ place. place ≡ type_place self.new units.now) }
        ensures there { OnOk result (HasType self.new units.now) }
        ensures grown { IsGrown self.old self.new }
    {
        let text = match self.add_text(alloc, units) {
            Ok(text) => text,
            Err(e) => return Err(e),
        };
        self.add_type_of(text)
    }

    /// Adds the type of a parameter, and puts its place behind those of the parameters before it.
    #[tactic(auto, using(crate::proofs::Grown::grown_trans))]
    fn add_param(
        &mut self,
        alloc: Global,
        units: &[u16],
        places: &mut Listed<u32>,
    ) -> Result<(), AllocError>
        ensures gathered { OnOk result (self.new ≡ with_type self.old units.now) }
        ensures places { OnOk result (places.new ≡ places.old ++ type_place self.new units.now ∷ []) }
        ensures there { OnOk result (HasType self.new units.now) }
        ensures grown { IsGrown self.old self.new }
    {
        let place = match self.add_type(alloc, units) {
            Ok(place) => place,
            Err(e) => return Err(e),
        };
        places.push(place)
    }

    /// Adds the types of parameters, and tells where they stand.
    #[tactic(auto, using(crate::proofs::Grown::grown_trans, crate::proofs::Grown::grown_refl))]
    fn add_params(
        &mut self,
        alloc: Global,
        prog: &Prog,
        params: &[NameNo],
    ) -> Result<Listed<u32>, AllocError>
        requires { IsTrue (names_below (length prog.now.names) params.now) }
        ensures gathered { OnOk result (self.new ≡ with_types self.old (map (text_in prog.now) params.now)) }
        ensures places { IfOk result (λ places. places ≡ map (type_place self.new) (map (text_in prog.now) params.now)) }
        ensures grown { IsGrown self.old self.new }
    {
        let mut places = Listed::new(alloc);
        for i in 0..params.len() {
            match self.add_param(alloc, units_of(prog, params[i]), &mut places) {
                Ok(()) => {}
                Err(e) => return Err(e),
            }
        }
        Ok(places)
    }

    /// Adds a prototype, and tells where it stands.
    #[tactic(auto, using(crate::proofs::Grown::grown_trans, crate::proofs::Grown::grown_refl))]
    pub(crate) fn add_proto(
        &mut self,
        alloc: Global,
        prog: &Prog,
        params: &[NameNo],
        ret: NameNo,
    ) -> Result<u32, AllocError>
        requires params { IsTrue (names_below (length prog.now.names) params.now) }
        requires ret { ret.0 < length prog.now.names }
        ensures gathered { OnOk result (self.new ≡ with_proto self.old (prototype (text_in prog.now) params.now ret)) }
        ensures place { IfOk result (λ place. place ≡ proto_place self.new (prototype (text_in prog.now) params.now ret)) }
        ensures grown { IsGrown self.old self.new }
    {
        let letters = match short_form_of(alloc, prog, params, ret) {
            Ok(letters) => letters,
            Err(e) => return Err(e),
        };
        let short = match self.add_text(alloc, letters.as_slice()) {
            Ok(short) => short,
            Err(e) => return Err(e),
        };
        let ret = match self.add_type(alloc, units_of(prog, ret)) {
            Ok(ret) => ret,
            Err(e) => return Err(e),
        };
        let params = match self.add_params(alloc, prog, params) {
            Ok(params) => params,
            Err(e) => return Err(e),
        };
        self.add_proto_of(ProtoParts { short, ret, params })
    }
}
