// The pools of what classes name.

ghost use Rattle.std.specs.Prelude.{◌≡◌, ◌<◌, nat_eq, length, IfOk, OnOk, IsTrue};
ghost use Rattle.std.specs.List.{list_any};
ghost use Rattle.pi_model.specs.Uses.{field_ref_below, names_below};
ghost use Rattle.pi_contents.specs.Contents.{OfText, OfType, OfField, OfMethod};
ghost use Rattle.pi_contents.specs.Named.{text_in, field_name, prototype};
ghost use Rattle.pi_dexpools.specs.Gathered.{nothing_gathered, with_new, place_of, with_text, text_place, same_proto, same_member, with_naming, naming_place, counts_of, cut, IsGrown};
ghost use Rattle.pi_dexpools.specs.There.{HasText};

use crate::added::units_of;
use crate::gathered::{Counts, Gathered, MemberParts, Place, ProtoParts};
use crate::keys::TextKey;
use crate::place::place_in;
use indexmap::IndexSet;
use pi_model::insn::FieldRef;
use pi_model::listed::{Listed, Texts};
use pi_model::numbers::NameNo;
use pi_model::prog::Prog;
use std::alloc::{AllocError, Global};
use std::marker::Model;

/// What classes name, each thing once, so that it is found. After a refusal of any call the pools may hold some of what the call
/// was to add; `cut` takes it back.
#[derive(Drop)]
pub struct Pools {
    texts: IndexSet<TextKey>,
    types: IndexSet<u32>,
    protos: IndexSet<ProtoParts>,
    fields: IndexSet<MemberParts>,
    methods: IndexSet<MemberParts>,
}

impl Model for Pools {
    ghost use Rattle.pi_dexpools.specs.declared.gathered.Gathered.{Gathered as Held};

    ghost Value = { Held };

    ghost view = { λ p. record { texts = p.texts.keys; types = p.types.keys; protos = p.protos.keys; fields = p.fields.keys; methods = p.methods.keys } };
}

/// The texts of a set in order.
fn texts_of(alloc: Global, set: IndexSet<TextKey>) -> Result<Texts, AllocError>
    ensures { IfOk result (λ texts. texts ≡ set.keys) }
{
    let mut texts = Listed::new(alloc);
    for key in set {
        texts.push(key.into_units())?;
    }
    Ok(texts)
}

/// The prototypes of a set in order.
fn protos_of(alloc: Global, set: IndexSet<ProtoParts>) -> Result<Listed<ProtoParts>, AllocError>
    ensures { IfOk result (λ protos. protos ≡ set.keys) }
{
    match set.into_iter().collect(alloc) {
        Ok(protos) => Ok(Listed::from_vec(protos)),
        Err(e) => Err(e),
    }
}

impl Pools {
    /// The empty pools, which take no memory until they grow.
    pub fn new(alloc: Global) -> Pools
        ensures { result ≡ nothing_gathered }
    {
        Pools {
            texts: IndexSet::new(alloc),
            types: IndexSet::new(alloc),
            protos: IndexSet::new(alloc),
            fields: IndexSet::new(alloc),
            methods: IndexSet::new(alloc),
        }
    }

    /// How much of each kind there is.
    pub fn counts(&self) -> Counts
        ensures { result ≡ counts_of self.now }
    {
        Counts {
            texts: self.texts.len(),
            types: self.types.len(),
            protos: self.protos.len(),
            fields: self.fields.len(),
            methods: self.methods.len(),
        }
    }

    /// Keeps the first so many of each kind.
    pub fn cut(&mut self, counts: Counts)
        ensures { self.new ≡ cut counts self.old }
    {
        self.texts.truncate(counts.texts);
        self.types.truncate(counts.types);
        self.protos.truncate(counts.protos);
        self.fields.truncate(counts.fields);
        self.methods.truncate(counts.methods);
    }

    /// All that is gathered, as lists.
    pub fn into_gathered(self, alloc: Global) -> Result<Gathered, AllocError>
        ensures { IfOk result (λ g. g ≡ self) }
    {
        let types = Listed::from_slice(alloc, self.types.as_slice())?;
        let fields = Listed::from_slice(alloc, self.fields.as_slice())?;
        let methods = Listed::from_slice(alloc, self.methods.as_slice())?;
        let texts = texts_of(alloc, self.texts)?;
        let protos = protos_of(alloc, self.protos)?;
        Ok(Gathered {
            texts,
            types,
            protos,
            fields,
            methods,
        })
    }

    /// Adds the text of those units, and tells where it stands.
    #[tactic(auto, using(crate::proofs::Grown::texts_grown, crate::proofs::Grown::grown_refl))]
    pub(crate) fn add_text(&mut self, alloc: Global, units: &[u16]) -> Result<u32, AllocError>
        ensures gathered { OnOk result (self.new ≡ with_text self.old units.now) }
        ensures place { IfOk result (λ place. place ≡ text_place self.new units.now) }
        ensures there { OnOk result (HasText self.new units.now) }
        ensures grown { IsGrown self.old self.new }
    {
        let key = match TextKey::new(alloc, units) {
            Ok(key) => key,
            Err(e) => return Err(e),
        };
        place_in(&mut self.texts, key)
    }

    /// Adds the type of a text by its place, and tells where it stands.
    #[tactic(auto, using(crate::proofs::Grown::types_grown))]
    pub(crate) fn add_type_of(&mut self, text: u32) -> Result<u32, AllocError>
        ensures gathered { OnOk result (self.new ≡ record self.old { types = with_new nat_eq self.old.types text }) }
        ensures place { IfOk result (λ place. place ≡ place_of nat_eq text self.new.types) }
        ensures there { OnOk result (IsTrue (list_any (nat_eq text) self.new.types)) }
        ensures grown { IsGrown self.old self.new }
    {
        place_in(&mut self.types, text)
    }

    /// Adds a prototype of those parts, and tells where it stands.
    #[tactic(auto, using(crate::proofs::Grown::protos_grown))]
    pub(crate) fn add_proto_of(&mut self, parts: ProtoParts) -> Result<u32, AllocError>
        ensures gathered { OnOk result (self.new ≡ record self.old { protos = with_new same_proto self.old.protos parts }) }
        ensures place { IfOk result (λ place. place ≡ place_of same_proto parts self.new.protos) }
        ensures grown { IsGrown self.old self.new }
    {
        place_in(&mut self.protos, parts)
    }

    /// Adds a field of those parts, and tells where it stands.
    #[tactic(auto, using(crate::proofs::Grown::fields_grown))]
    pub(crate) fn add_field_of(&mut self, parts: MemberParts) -> Result<u32, AllocError>
        ensures gathered { OnOk result (self.new ≡ record self.old { fields = with_new same_member self.old.fields parts }) }
        ensures place { IfOk result (λ place. place ≡ place_of same_member parts self.new.fields) }
        ensures grown { IsGrown self.old self.new }
    {
        place_in(&mut self.fields, parts)
    }

    /// Adds a method of those parts, and tells where it stands.
    #[tactic(auto, using(crate::proofs::Grown::methods_grown))]
    pub(crate) fn add_method_of(&mut self, parts: MemberParts) -> Result<u32, AllocError>
        ensures gathered { OnOk result (self.new ≡ record self.old { methods = with_new same_member self.old.methods parts }) }
        ensures place { IfOk result (λ place. place ≡ place_of same_member parts self.new.methods) }
        ensures grown { IsGrown self.old self.new }
    {
        place_in(&mut self.methods, parts)
    }

    /// Adds a text, and tells where it stands.
    pub fn text(&mut self, alloc: Global, prog: &Prog, name: NameNo) -> Result<Place, AllocError>
        requires { name.0 < length prog.now.names }
        ensures gathered { OnOk result (self.new ≡ with_naming self.old (OfText (text_in prog.now name))) }
        ensures place { IfOk result (λ p. p ≡ naming_place self.new (OfText (text_in prog.now name))) }
        ensures grown { IsGrown self.old self.new }
    {
        match self.add_text(alloc, units_of(prog, name)) {
            Ok(place) => Ok(Place::OfText(place)),
            Err(e) => Err(e),
        }
    }

    /// Adds a type, and tells where it stands.
    pub fn ty(&mut self, alloc: Global, prog: &Prog, name: NameNo) -> Result<Place, AllocError>
        requires { name.0 < length prog.now.names }
        ensures gathered { OnOk result (self.new ≡ with_naming self.old (OfType (text_in prog.now name))) }
        ensures place { IfOk result (λ p. p ≡ naming_place self.new (OfType (text_in prog.now name))) }
        ensures grown { IsGrown self.old self.new }
    {
        match self.add_type(alloc, units_of(prog, name)) {
            Ok(place) => Ok(Place::OfType(place)),
            Err(e) => Err(e),
        }
    }

    /// Adds a field, and tells where it stands.
    pub fn field(
        &mut self,
        alloc: Global,
        prog: &Prog,
        field: &FieldRef,
    ) -> Result<Place, AllocError>
        requires { IsTrue (field_ref_below (length prog.now.names) field.now) }
        ensures gathered { OnOk result (self.new ≡ with_naming self.old (OfField (field_name (text_in prog.now) field.now))) }
        ensures place { IfOk result (λ p. p ≡ naming_place self.new (OfField (field_name (text_in prog.now) field.now))) }
        ensures grown { IsGrown self.old self.new }
    {
        match self.add_field(alloc, prog, field) {
            Ok(place) => Ok(Place::OfField(place)),
            Err(e) => Err(e),
        }
    }

    /// Adds a method, and tells where it stands.
    pub fn method(
        &mut self,
        alloc: Global,
        prog: &Prog,
        class: NameNo,
        name: NameNo,
        params: &[NameNo],
        ret: NameNo,
    ) -> Result<Place, AllocError>
        requires class { class.0 < length prog.now.names }
        requires name { name.0 < length prog.now.names }
        requires params { IsTrue (names_below (length prog.now.names) params.now) }
        requires ret { ret.0 < length prog.now.names }
        ensures gathered { OnOk result (self.new ≡ with_naming self.old (OfMethod (record { class = text_in prog.now class; name = text_in prog.now name; proto = prototype (text_in prog.now) params.now ret }))) }
        ensures place { IfOk result (λ p. p ≡ naming_place self.new (OfMethod (record { class = text_in prog.now class; name = text_in prog.now name; proto = prototype (text_in prog.now) params.now ret }))) }
        ensures grown { IsGrown self.old self.new }
    {
        match self.add_method(alloc, prog, class, name, params, ret) {
            Ok(place) => Ok(Place::OfMethod(place)),
            Err(e) => Err(e),
        }
    }
}
