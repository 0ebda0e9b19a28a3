// What makes two texts or two prototypes the same thing, so that each is found.

ghost use Rattle.std.specs.Prelude.{◌≡◌, ◌++◌, nat_eq, IfOk};
ghost use Rattle.std.specs.Cmp.Lexicographic.{pointwise, nat_list_eq_equiv};
ghost use Rattle.std.specs.Cmp.{partial_equiv_from_equiv};
ghost use Rattle.std.specs.Cmp.Rules.{comparing, hashing};
ghost use Rattle.std.specs.Hash as fed;
ghost use Rattle.std.proofs.Common.{rules};

use crate::gathered::ProtoParts;
use pi_model::listed::{Listed, Units};
use std::alloc::{AllocError, Global};
use std::hash::{Hash, Hasher};
use std::marker::Model;

/// A text by its units.
#[derive(Drop)]
pub(crate) struct TextKey {
    units: Units,
}

impl Model for TextKey {
    ghost use Rattle.std.specs.Prelude.{List, ℕ};

    ghost Value = { List ℕ };

    ghost view = { λ s. s.units };
}

impl PartialEq for TextKey {
    ghost eq = { pointwise nat_eq };

    ghost laws = { partial_equiv_from_equiv nat_list_eq_equiv };

    fn eq(&self, other: &TextKey) -> bool {
        self.units.as_slice() == other.units.as_slice()
    }
}

impl Eq for TextKey {
    ghost laws = { nat_list_eq_equiv };
}

impl Hash for TextKey {
    ghost hash_input = { λ units. fed.slice fed.u16 units };

    ghost respects_eq = { Prim.search (hashing, rules) };

    fn hash<H: Hasher>(&self, state: &mut H) {
        self.units.as_slice().hash(state);
    }
}

impl TextKey {
    /// The text of those units.
    pub(crate) fn new(alloc: Global, units: &[u16]) -> Result<TextKey, AllocError>
        ensures { IfOk result (λ key. key ≡ units.now) }
    {
        match Listed::from_slice(alloc, units) {
            Ok(units) => Ok(TextKey { units }),
            Err(e) => Err(e),
        }
    }

    /// Its units; takes no memory.
    pub(crate) fn into_units(self) -> Units
        ensures { result ≡ self }
    {
        self.units
    }
}

impl PartialEq for ProtoParts {
    ghost use Rattle.pi_dexpools.specs.Gathered.{same_proto};

    ghost eq = { same_proto };

    ghost laws = { Prim.search (comparing, rules) };

    fn eq(&self, other: &ProtoParts) -> bool {
        self.short == other.short
            && (self.ret == other.ret && self.params.as_slice() == other.params.as_slice())
    }
}

impl Eq for ProtoParts {
    ghost laws = { Prim.search (comparing, rules) };
}

impl Hash for ProtoParts {
    ghost hash_input = { λ p. fed.u32 p.short ++ (fed.u32 p.ret ++ fed.slice fed.u32 p.params) };

    ghost respects_eq = { Prim.search (hashing, rules) };

    fn hash<H: Hasher>(&self, state: &mut H) {
        self.short.hash(state);
        self.ret.hash(state);
        self.params.as_slice().hash(state);
    }
}
