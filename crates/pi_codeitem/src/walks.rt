// The pieces that a walk over the units of a code found. A piece is read again from the units when it is asked for, so
// that no list of all instructions is kept.

ghost use Rattle.std.specs.Prelude.{◌≡◌, ◌==◌, ◌<◌, length, Some, None, find, slice_get, IfSome, IfNone, pos, ◌+ℤ◌};
ghost use Rattle.pi_insn.specs.Lent.{data_of};
ghost use Rattle.pi_format.specs.Rules.Pieces.{Piece as Found, walk, address, payload_of, payload_fits};
ghost use Rattle.pi_codeitem.specs.Asking.{payload_in, piece_in};
ghost use Rattle.pi_codeitem.specs.Keeping.{IsWalk};

use crate::pieces::Piece;
use pi_insn::Payload;
use std::marker::Model;

/// The pieces of a code one behind the other, and the address at which none stands.
#[derive(Debug, Drop)]
pub struct Walk<'a> {
    units: &'a [u16],
    /// The address at which each piece begins.
    starts: Vec<u32>,
    /// The opcode of the instructions that may point at each piece. Judged once, since many may.
    askers: Vec<Option<u8>>,
    stop: Option<u32>,
}

impl<'a> Model for Walk<'a> {
    ghost use Rattle.pi_format.specs.Rules.Pieces.{Walk as Walked, walk};
    ghost use Rattle.pi_codeitem.specs.Keeping.{IsWalk};

    ghost Value = { Walked };

    ghost view = { λ w. walk w.units.now };

    ghost invariant = { λ w. IsWalk w.units.now w.starts.items w.askers.items w.stop };
}

impl<'a> Walk<'a> {
    /// The walk over units, by what it found.
    pub(crate) fn new(
        units: &'a [u16],
        starts: Vec<u32>,
        askers: Vec<Option<u8>>,
        stop: Option<u32>,
    ) -> Walk<'a>
        requires { IsWalk units.now starts.items askers.items stop }
        ensures { result ≡ walk units.now }
    {
        Walk {
            units,
            starts,
            askers,
            stop,
        }
    }

    /// The number of pieces.
    pub fn len(&self) -> usize
        ensures { result ≡ length self.now.pieces }
    {
        self.starts.len()
    }

    /// A piece by its number in their order.
    pub fn piece(&self, k: usize) -> Piece<'a>
        requires { k < length self.now.pieces }
        ensures { slice_get self.now.pieces k ≡ Some result }
    {
        let at = self.starts[k] as usize;
        Piece::front(self.units, at).unwrap()
    }

    /// The address at which no piece stands.
    pub fn stop(&self) -> Option<u32>
        ensures { result ≡ self.now.stop }
    {
        self.stop
    }

    /// The number of the piece that begins at an address; the walk is searched by halves.
    fn number_at(&self, at: u32) -> Option<usize>
        ensures found { piece_in self.now.pieces result ≡ find (λ (p : Found). p.at == at) self.now.pieces }
        ensures counted { IfSome result (λ k. k < length self.now.pieces) }
    {
        match self.starts.binary_search(&at) {
            Ok(k) => Some(k),
            Err(_) => None,
        }
    }

    /// The number of the piece that begins at an address, also past all that there can be.
    fn number_from(&self, at: u64) -> Option<usize>
        ensures found { piece_in self.now.pieces result ≡ find (λ (p : Found). p.at == at) self.now.pieces }
        ensures counted { IfSome result (λ k. k < length self.now.pieces) }
    {
        let _starts = &self.starts;
        if at < 1 << 32 {
            self.number_at(at as u32)
        } else {
            None
        }
    }

    /// The number of the piece at an even address that far from an instruction.
    fn number_of(&self, at: u32, dist: i32) -> Option<usize>
        ensures found { payload_of self.now.pieces at dist ≡ payload_in (piece_in self.now.pieces result) }
        ensures counted { IfSome result (λ k. k < length self.now.pieces) }
    {
        let place = address(at, dist)?;
        if place % 2 != 0 {
            return None;
        }
        self.number_from(place)
    }

    /// The piece that begins at an address.
    pub fn piece_at(&self, at: u32) -> Option<Piece<'a>>
        ensures { result ≡ find (λ (p : Found). p.at == at) self.now.pieces }
    {
        match self.number_at(at) {
            None => None,
            Some(k) => Some(self.piece(k)),
        }
    }

    /// The payload at an even address that far from an instruction.
    pub fn payload_of(&self, at: u32, dist: i32) -> Option<Payload<'a>>
        ensures none { IfNone result (payload_of self.now.pieces at dist ≡ None) }
        ensures some { IfSome result (λ p. payload_of self.now.pieces at dist ≡ Some (data_of p)) }
    {
        match self.number_of(at, dist) {
            None => None,
            Some(k) => self.piece(k).payload(),
        }
    }

    /// Whether instructions of an opcode may point at the piece with a number.
    fn is_asked(&self, op: u8, k: usize) -> bool
        requires { k < length self.now.pieces }
        ensures { result ≡ payload_fits op (payload_in (slice_get self.now.pieces k)) }
    {
        match self.askers[k] {
            None => false,
            Some(asker) => op == asker,
        }
    }

    /// Whether a payload that instructions of an opcode may point at stands that far from an address.
    pub(crate) fn is_asked_by(&self, op: u8, at: u32, dist: i32) -> bool
        ensures { result ≡ payload_fits op (payload_of self.now.pieces at dist) }
    {
        match self.number_of(at, dist) {
            None => false,
            Some(k) => self.is_asked(op, k),
        }
    }
}

/// The address that far from another, where there is such a one.
fn address(at: u32, dist: i32) -> Option<u64>
    ensures { result ≡ address (pos at +ℤ dist) }
{
    let place = at as i64 + dist as i64;
    if place < 0 { None } else { Some(place as u64) }
}
