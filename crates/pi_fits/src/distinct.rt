// Whether texts are distinct.

ghost use Rattle.std.specs.Prelude.{◌≡◌, ◌++◌, ◌∷◌, [], true, false, nat_eq, IfOk};
ghost use Rattle.std.specs.List.{list_any};
ghost use Rattle.std.specs.Cmp.Lexicographic.{pointwise, nat_list_eq_equiv};
ghost use Rattle.std.specs.Cmp.{partial_equiv_from_equiv};
ghost use Rattle.std.specs.Cmp.Rules.{comparing, hashing};
ghost use Rattle.std.specs.Hash as fed;
ghost use Rattle.std.proofs.Common.{rules};
ghost use Rattle.pi_model.specs.Distinct.{all_distinct};
ghost use Rattle.pi_model.specs.Texts.{same_text};

use indexmap::IndexSet;
use pi_model::listed::Units;
use std::alloc::{AllocError, Global};
use std::hash::{Hash, Hasher};
use std::marker::Model;

/// A text that is looked up.
#[derive(Debug, Drop)]
struct Text {
    units: Units,
}

impl Model for Text {
    ghost use Rattle.std.specs.Prelude.{List, ℕ};

    ghost Value = { List ℕ };

    ghost view = { λ t. t.units };
}

impl PartialEq for Text {
    ghost eq = { pointwise nat_eq };

    ghost laws = { partial_equiv_from_equiv nat_list_eq_equiv };

    fn eq(&self, other: &Text) -> bool {
        self.units.as_slice() == other.units.as_slice()
    }
}

impl Eq for Text {
    ghost laws = { nat_list_eq_equiv };
}

impl Hash for Text {
    ghost hash_input = { λ units. fed.slice fed.u16 units };

    ghost respects_eq = { Prim.search (hashing, rules) };

    fn hash<H: Hasher>(&self, state: &mut H) {
        self.units.as_slice().hash(state);
    }
}

/// Adds a text to those that are known, and tells whether it is new.
fn add_text(alloc: Global, known: &mut IndexSet<Text>, units: &[u16]) -> Result<bool, AllocError>
    ensures new { IfOk result (λ b. b ≡ true → (known.new.keys ≡ known.old.keys ++ units.now ∷ []) × (list_any (same_text units.now) known.old.keys ≡ false)) }
    ensures old { IfOk result (λ b. b ≡ false → list_any (same_text units.now) known.old.keys ≡ true) }
{
    let units = Units::from_slice(alloc, units)?;
    let (_, is_new) = known.insert_full(Text { units })?;
    Ok(is_new)
}

/// Whether no text stands twice.
#[tactic(auto, using(crate::proofs::Differ::twice_there, crate::proofs::Differ::next_distinct))]
pub(crate) fn are_distinct(alloc: Global, texts: &[Units]) -> Result<bool, AllocError>
    ensures { IfOk result (λ b. b ≡ all_distinct same_text texts.now) }
{
    let mut known = IndexSet::new(alloc);
    for units in texts {
        if !add_text(alloc, &mut known, units.as_slice())? {
            return Ok(false);
        }
    }
    Ok(true)
}
