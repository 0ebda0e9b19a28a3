// Things of which equal ones stand in the file once: lists of types, and the static values of classes.

ghost use Rattle.std.specs.Prelude.{◌≡◌, nat_eq, OnOk, IfSome, length, slice_get, Some};
ghost use Rattle.std.specs.Cmp.Lexicographic.{pointwise, nat_list_eq_equiv};
ghost use Rattle.std.specs.Cmp.{partial_equiv_from_equiv};
ghost use Rattle.std.specs.Cmp.Rules.{comparing, hashing};
ghost use Rattle.std.proofs.Common.{rules};
ghost use Rattle.std.specs.Hash as fed;
ghost use Rattle.pi_dextables.specs.Items.{with_new, offset_of};

use indexmap::IndexSet;
use std::alloc::{AllocFailed, Global};
use std::hash::{Hash, Hasher};
use std::marker::Model;

/// The bytes of a thing.
#[derive(Debug, Drop)]
pub(crate) struct Piece {
    bytes: Vec<u8>,
}

impl Model for Piece {
    ghost use Rattle.std.specs.Prelude.{List, ℕ};

    ghost Value = { List ℕ };

    ghost view = { λ p. p.bytes.items };
}

impl PartialEq for Piece {
    ghost eq = { pointwise nat_eq };

    ghost laws = { partial_equiv_from_equiv nat_list_eq_equiv };

    fn eq(&self, other: &Piece) -> bool {
        self.bytes.as_slice() == other.bytes.as_slice()
    }
}

impl Eq for Piece {
    ghost laws = { nat_list_eq_equiv };
}

impl Hash for Piece {
    ghost hash_input = { λ bytes. fed.slice fed.u8 bytes };

    ghost respects_eq = { Prim.search (hashing, rules) };

    fn hash<H: Hasher>(&self, state: &mut H) {
        self.bytes.as_slice().hash(state);
    }
}

impl Piece {
    /// The thing of those bytes; takes no memory.
    pub(crate) fn new(bytes: Vec<u8>) -> Piece
        ensures { result ≡ bytes.items }
    {
        Piece { bytes }
    }

    /// The bytes.
    pub(crate) fn as_slice(&self) -> &[u8]
        ensures { result.now ≡ self.now }
    {
        self.bytes.as_slice()
    }
}

/// Adds a thing, unless an equal one is there.
pub(crate) fn add(pool: &mut IndexSet<Piece>, piece: Piece) -> Result<(), AllocFailed<Piece>>
    ensures { OnOk result (pool.new.keys ≡ with_new pool.old.keys piece) }
{
    pool.insert(piece)?;
    Ok(())
}

/// The offset of a thing, by the offsets of all; 0 where it is not among them.
pub(crate) fn offset_of(pool: &IndexSet<Piece>, offsets: &[usize], piece: &Piece) -> usize
    requires { length offsets.now ≡ length pool.now.keys }
    ensures { result ≡ offset_of pool.now.keys offsets.now piece.now }
{
    match pool.get_index_of(piece) {
        Some(place) => offsets[place],
        None => 0,
    }
}
