// The registers that an instruction names, in the room of six numbers whatever their count.

ghost use Rattle.std.specs.Prelude.{◌≡◌, ◌<◌, ◌≤◌, ◌+◌, ◌%◌, length, take, slice_get, Some};
ghost use Rattle.pi_model.specs.Registers.{registers_in_row, places_of};

use std::fmt::{Debug, Formatter, Result, Write};
use std::marker::Model;

/// Registers in the order of the operands: at most five in any order, or so many in a row, modulo 2^16.
/// Equal lists have equal fields: each of at most five stands in a place, with 0 behind them; of more, the first one.
#[derive(Clone, Copy)]
pub struct Regs {
    n: u8,
    places: [u16; 5],
}

impl Model for Regs {
    ghost use Rattle.std.specs.Prelude.{◌≡◌, ℕ, List, length};
    ghost use Rattle.pi_model.specs.Registers.{named_registers, places_of};

    ghost Value = { List ℕ };

    ghost view = { λ r. named_registers r.n r.places };

    ghost invariant = { λ r. (length (named_registers r.n r.places) ≡ r.n) × (places_of (named_registers r.n r.places) ≡ r.places) };

    ghost inverse = { λ regs. record { n = length regs; places = places_of regs } };

    ghost inverse_ok = { λ r h i. record { n = h.0 i; places = h.1 i } };
}

/// The first of five registers, with 0 in the places behind them.
fn kept(n: u8, regs: [u16; 5]) -> [u16; 5]
    ensures { result ≡ places_of (take n regs) }
{
    let [a, b, c, d, _] = regs;
    match n {
        0 => [0; 5],
        1 => [a, 0, 0, 0, 0],
        2 => [a, b, 0, 0, 0],
        3 => [a, b, c, 0, 0],
        4 => [a, b, c, d, 0],
        _ => regs,
    }
}

/// A register of a row, modulo 2^16.
fn in_row(first: u16, i: u8) -> u16
    ensures { result ≡ (first + i) % 65536 }
{
    first.wrapping_add(i as u16)
}

impl Regs {
    /// The first so many of five registers, all where `n` is more.
    pub fn few(n: u8, regs: [u16; 5]) -> Regs
        ensures { result ≡ take n regs }
    {
        Regs {
            n: n.min(5),
            places: kept(n, regs),
        }
    }

    /// So many registers in a row from a first one on, modulo 2^16.
    pub fn row(first: u16, n: u8) -> Regs
        ensures { result ≡ registers_in_row first n }
    {
        if n <= 5 {
            let five = [
                first,
                in_row(first, 1),
                in_row(first, 2),
                in_row(first, 3),
                in_row(first, 4),
            ];
            Regs::few(n, five)
        } else {
            Regs {
                n,
                places: [first, 0, 0, 0, 0],
            }
        }
    }

    /// The number of registers.
    pub fn len(&self) -> usize
        ensures { result ≡ length self.now }
    {
        self.n as usize
    }

    /// The register at a place.
    pub fn at(&self, place: usize) -> u16
        requires { place < length self.now }
        ensures { slice_get self.now place ≡ Some result }
    {
        if self.n <= 5 {
            self.places[place]
        } else {
            in_row(self.places[0], place as u8)
        }
    }
}

/// Registers as a list of numbers.
#[derive(Drop)]
struct Items {
    regs: Regs,
}

impl Debug for Items {
    fn fmt<W: Write>(&self, f: &mut Formatter<W>) -> Result {
        let mut list = f.debug_list();
        for place in 0..self.regs.len() {
            list.entry(&self.regs.at(place));
        }
        list.finish()
    }
}

/// Shown as each list of a program is, by its numbers alone.
impl Debug for Regs {
    fn fmt<W: Write>(&self, f: &mut Formatter<W>) -> Result {
        f.debug_struct("Listed")
            .field("items", &Items { regs: *self })
            .finish()
    }
}
