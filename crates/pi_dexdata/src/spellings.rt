// Lists of handlers by the numbers that they are made of, so that equal ones are found.

ghost use Rattle.std.specs.Prelude.{◌≡◌, ◌++◌, ◌∷◌, [], if◌then◌else◌, nat_eq, map, OnOk, IfOk};
ghost use Rattle.std.specs.Cmp.Lexicographic.{pointwise, nat_list_eq_equiv};
ghost use Rattle.std.specs.Cmp.{partial_equiv_from_equiv};
ghost use Rattle.std.specs.Cmp.Rules.{comparing, hashing};
ghost use Rattle.std.specs.Hash as fed;
ghost use Rattle.std.specs.List.{flat_map};
ghost use Rattle.std.proofs.Common.{rules};
ghost use Rattle.pi_classtables.specs.Ranges.{with_list, list_no};
ghost use Rattle.pi_dexdata.specs.Grouped.{catch_numbers, spelled};

use indexmap::IndexSet;
use pi_dextables::tables::{Catch, Catches};
use pi_model::listed::Listed;
use std::alloc::{AllocError, Global};
use std::hash::{Hash, Hasher};
use std::marker::Model;

/// The numbers of a list of handlers.
#[derive(Debug, Drop)]
pub(crate) struct Spelling {
    numbers: Vec<u32>,
}

impl Model for Spelling {
    ghost use Rattle.std.specs.Prelude.{List, ℕ};

    ghost Value = { List ℕ };

    ghost view = { λ s. s.numbers.items };
}

impl PartialEq for Spelling {
    ghost eq = { pointwise nat_eq };

    ghost laws = { partial_equiv_from_equiv nat_list_eq_equiv };

    fn eq(&self, other: &Spelling) -> bool {
        self.numbers.as_slice() == other.numbers.as_slice()
    }
}

impl Eq for Spelling {
    ghost laws = { nat_list_eq_equiv };
}

impl Hash for Spelling {
    ghost hash_input = { λ numbers. fed.slice fed.u32 numbers };

    ghost respects_eq = { Prim.search (hashing, rules) };

    fn hash<H: Hasher>(&self, state: &mut H) {
        self.numbers.as_slice().hash(state);
    }
}

/// The numbers of handlers that catch a type.
fn put_typed(out: &mut Vec<u32>, typed: &[Catch]) -> Result<(), AllocError>
    ensures { OnOk result (out.new.items ≡ out.old.items ++ flat_map catch_numbers typed.now) }
{
    for handler in typed {
        out.extend_from_slice(&[handler.ty.into(), handler.to])?;
    }
    Ok(())
}

/// The numbers of a list of handlers.
fn spell(alloc: Global, list: &Catches) -> Result<Spelling, AllocError>
    ensures { IfOk result (λ s. s ≡ spelled list.now) }
{
    let mut numbers = Vec::new(alloc);
    put_typed(&mut numbers, list.typed.as_slice())?;
    if let Some(to) = list.last {
        numbers.push(to)?;
    }
    Ok(Spelling { numbers })
}

/// Puts a list of handlers behind the others where it is new.
fn add_new(lists: &mut Listed<Catches>, list: Catches, is_new: bool) -> Result<(), AllocError>
    ensures { OnOk result (lists.new ≡ (if is_new then lists.old ++ list ∷ [] else lists.old)) }
{
    if is_new {
        lists.push(list)?;
    }
    Ok(())
}

/// The number of a list of handlers among the lists, behind which it is put where no equal one is there; `spellings` are those of
/// the lists. As many lists as 32 bits do not count need more memory than there is.
pub(crate) fn list_number(
    alloc: Global,
    spellings: &mut IndexSet<Spelling>,
    lists: &mut Listed<Catches>,
    list: Catches,
) -> Result<u32, AllocError>
    requires { spellings.old.keys ≡ map spelled lists.old }
    ensures spellings { OnOk result (spellings.new.keys ≡ map spelled lists.new) }
    ensures lists { OnOk result (lists.new ≡ with_list lists.old list) }
    ensures number { IfOk result (λ number. number ≡ list_no lists.new list) }
{
    let (place, is_new) = spellings.insert_full(spell(alloc, &list)?)?;
    add_new(lists, list, is_new)?;
    match u32::try_from(place) {
        Ok(number) => Ok(number),
        Err(_) => Err(AllocError),
    }
}
