// What the entries of a file say, of which the rules X1 to X17 hold: so what an entry names is there.

ghost use Rattle.std.specs.Prelude.{◌≡◌, ◌≢◌, ◌<◌, codes, IfOk};
ghost use Rattle.std.specs.List.{All};
ghost use Rattle.pi_model.specs.Texts.{same_text};
ghost use Rattle.pi_bytes.specs.Numbers.{no_index};
ghost use Rattle.pi_format.specs.Tables.{count_at, string_ids, type_ids, proto_ids, field_ids, method_ids, class_defs};
ghost use Rattle.pi_format.specs.Rules.Entries.{list_at};
ghost use Rattle.pi_format.specs.Rules.Descriptors.{begins_with};
ghost use Rattle.pi_format.specs.Rules.Strings.{string_units, type_string, type_units};
ghost use Rattle.pi_format.specs.Rules.Members.{member_entry, proto_entry};
ghost use Rattle.pi_format.specs.Rules.Classes.{class_entry};
ghost use Rattle.pi_format.specs.Rules.ClassData.{class_flags, class_data_at, class_values_at};

use crate::raw::Raw;
use crate::type_lists::list;
use pi_dexids::entries::{
    ClassDef, FIELD_IDS, METHOD_IDS, Member, Proto, class_def_at, member_at, proto_at,
    string_of_type,
};
use std::alloc::{AllocError, Global};

impl<'a> Raw<'a> {
    /// The string of a type's descriptor.
    pub fn type_string(&self, t: u32) -> u32
        requires { t < count_at self.now type_ids }
        ensures value { result ≡ type_string self.now t }
        ensures there { result < count_at self.now string_ids }
    {
        string_of_type(self.file(), t as usize) as u32
    }

    /// A field by its number.
    pub fn field_entry(&self, i: u32) -> Member
        requires { i < count_at self.now field_ids }
        ensures value { result ≡ member_entry self.now field_ids i }
        ensures class { result.class < count_at self.now type_ids }
        ensures kind { result.kind < count_at self.now type_ids }
        ensures name { result.name < count_at self.now string_ids }
    {
        member_at(self.file(), FIELD_IDS, i as usize)
    }

    /// A method by its number.
    pub fn method_entry(&self, i: u32) -> Member
        requires { i < count_at self.now method_ids }
        ensures value { result ≡ member_entry self.now method_ids i }
        ensures class { result.class < count_at self.now type_ids }
        ensures kind { result.kind < count_at self.now proto_ids }
        ensures name { result.name < count_at self.now string_ids }
    {
        member_at(self.file(), METHOD_IDS, i as usize)
    }

    /// A prototype by its number.
    pub fn proto_entry(&self, i: u32) -> Proto
        requires { i < count_at self.now proto_ids }
        ensures value { result ≡ proto_entry self.now i }
        ensures ret { result.ret < count_at self.now type_ids }
    {
        proto_at(self.file(), i as usize)
    }

    /// The types of the parameters of a prototype.
    pub fn params(&self, alloc: Global, i: u32) -> Result<Vec<u16>, AllocError>
        requires { i < count_at self.now proto_ids }
        ensures value { IfOk result (λ list. list.items ≡ list_at self.now (proto_entry self.now i).params) }
        ensures there { IfOk result (λ list. All (λ t. t < count_at self.now type_ids) list.items) }
    {
        let file = self.file();
        let proto = proto_at(file, i as usize);
        list(alloc, file, proto.params as usize)
    }

    /// A class definition by its number.
    pub fn class_entry(&self, i: u32) -> ClassDef
        requires { i < count_at self.now class_defs }
        ensures class { result.class ≡ (class_entry self.now i).class }
        ensures flags { result.flags ≡ class_flags self.now i }
        ensures parent { result.parent ≡ (class_entry self.now i).parent }
        ensures faces { result.faces ≡ (class_entry self.now i).faces }
        ensures data { result.data_at ≡ class_data_at self.now i }
        ensures values { result.values_at ≡ class_values_at self.now i }
        ensures class_there { result.class < count_at self.now type_ids }
        ensures parent_there { result.parent ≢ no_index → result.parent < count_at self.now type_ids }
    {
        class_def_at(self.file(), i as usize)
    }

    /// The types of the interfaces of a class definition.
    pub fn faces(&self, alloc: Global, i: u32) -> Result<Vec<u16>, AllocError>
        requires { i < count_at self.now class_defs }
        ensures value { IfOk result (λ list. list.items ≡ list_at self.now (class_entry self.now i).faces) }
        ensures there { IfOk result (λ list. All (λ t. t < count_at self.now type_ids) list.items) }
    {
        let file = self.file();
        list(alloc, file, class_def_at(file, i as usize).faces as usize)
    }

    /// Whether a string is `<init>`.
    #[tactic(auto, unfolding(crate::specs::Whole::known_of))]
    pub fn is_constructor_name(&self, s: u32) -> bool
        requires { s < count_at self.now string_ids }
        ensures { result ≡ same_text (codes "<init>") (string_units self.now s) }
    {
        self.known(s).is_constructor
    }

    /// Whether a string is `<clinit>`.
    #[tactic(auto, unfolding(crate::specs::Whole::known_of))]
    pub fn is_initialiser_name(&self, s: u32) -> bool
        requires { s < count_at self.now string_ids }
        ensures { result ≡ same_text (codes "<clinit>") (string_units self.now s) }
    {
        self.known(s).is_initialiser
    }

    /// Whether a type is `Ljava/lang/String;`.
    #[tactic(auto, unfolding(crate::specs::Whole::known_of))]
    pub fn is_string_type(&self, t: u32) -> bool
        requires { t < count_at self.now type_ids }
        ensures { result ≡ same_text (codes "Ljava/lang/String;") (type_units self.now t) }
    {
        self.known(self.type_string(t)).is_string_type
    }

    /// Whether a type is `Ljava/lang/Class;`.
    #[tactic(auto, unfolding(crate::specs::Whole::known_of))]
    pub fn is_class_type(&self, t: u32) -> bool
        requires { t < count_at self.now type_ids }
        ensures { result ≡ same_text (codes "Ljava/lang/Class;") (type_units self.now t) }
    {
        self.known(self.type_string(t)).is_class_type
    }

    /// Whether the descriptor of a type begins with a letter.
    #[tactic(auto, using(pi_dexids::proofs::Known::letter_by), unfolding(pi_dexids::specs::Facts::letter_of))]
    pub fn begins_with(&self, letter: u8, t: u32) -> bool
        requires there { t < count_at self.now type_ids }
        requires some { 0 < letter }
        ensures { result ≡ begins_with letter (type_units self.now t) }
    {
        letter as u16 == self.letter(t)
    }
}
