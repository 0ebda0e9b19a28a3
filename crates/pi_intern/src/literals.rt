// One slot for each name, empty or with an address, and what a transaction has set so far.

ghost use Rattle.std.specs.Prelude.{◌≡◌, ◌<◌, None, Some, [], length, replicate, slice_get, slice_set, vec_capacity, IfOk, IsSome, IsTrue};
ghost use Rattle.pi_model.specs.Uses.{names_below};
ghost use Rattle.pi_intern.specs.Literals.{without_names};

use pi_model::numbers::{Addr, NameNo};
use std::alloc::{AllocError, Global};
use std::marker::Model;

/// One slot for each name, and while a transaction is pending the names whose slots it has set, the last one last.
#[derive(Drop)]
pub struct Literals {
    slots: Vec<Option<Addr>>,
    touched: Vec<NameNo>,
    pending: bool,
}

impl Model for Literals {
    ghost use Rattle.std.specs.Prelude.{vec_capacity};
    ghost use Rattle.pi_intern.specs.Literals.{Slots, at_begin, IsKept};

    ghost Value = { Slots };

    ghost view = { λ l. record { now = l.slots.items; begun = at_begin l.pending l.slots.items l.touched.items } };

    ghost invariant = { λ l. IsKept l.slots.items l.touched.items (vec_capacity l.touched) };
}

impl Literals {
    /// Empty slots for that many names, with no transaction pending. All memory is taken here.
    pub fn new(alloc: Global, names: u32) -> Result<Literals, AllocError>
        ensures slots { IfOk result (λ l. l.now ≡ replicate names None) }
        ensures begun { IfOk result (λ l. l.begun ≡ None) }
    {
        let mut slots = Vec::new(alloc);
        slots.resize(names as usize, None)?;
        let touched = Vec::with_capacity(alloc, names as usize)?;
        Ok(Literals {
            slots,
            touched,
            pending: false,
        })
    }

    /// The address in a name's slot, None where it is empty.
    pub fn addr_of(&self, n: NameNo) -> Option<Addr>
        requires { n.0 < length self.now.now }
        ensures { slice_get self.now.now n.0 ≡ Some result }
    {
        self.slots[n.0 as usize]
    }

    /// Puts an address into a name's empty slot; takes no memory.
    pub fn set(&mut self, n: NameNo, at: Addr)
        requires within { n.0 < length self.old.now }
        requires empty { slice_get self.old.now n.0 ≡ Some None }
        ensures slots { self.new.now ≡ slice_set self.old.now n.0 (Some at) }
        ensures begun { self.new.begun ≡ self.old.begun }
    {
        let slot = n.0 as usize;
        self.slots[slot] = Some(at);
        if self.pending {
            match self.touched.push(n) {
                Ok(()) => {}
                Err(_) => unreachable!(),
            }
        }
    }

    /// Begins a transaction; takes no memory.
    pub fn begin(&mut self)
        requires { self.old.begun ≡ None }
        ensures slots { self.new.now ≡ self.old.now }
        ensures begun { self.new.begun ≡ Some self.old.now }
    {
        self.touched.clear();
        self.pending = true;
    }

    /// Ends the transaction, and keeps what it set.
    pub fn commit(&mut self)
        requires { IsSome self.old.begun }
        ensures slots { self.new.now ≡ self.old.now }
        ensures begun { self.new.begun ≡ None }
    {
        self.pending = false; // and the slots stay
    }

    /// Ends the transaction, and makes the slots what they were at its begin.
    pub fn abort(&mut self)
        requires { IsSome self.old.begun }
        ensures slots { self.old.begun ≡ Some self.new.now }
        ensures begun { self.new.begun ≡ None }
        ensures names { length self.new.now ≡ length self.old.now }
    {
        take_back(self.slots.as_mut_slice(), &mut self.touched);
        self.pending = false;
    }
}

/// Empties the slots of some names, the last name first.
fn take_back(slots: &mut [Option<Addr>], names: &mut Vec<NameNo>)
    requires { IsTrue (names_below (length slots.old) names.old.items) }
    ensures slots { slots.new ≡ without_names slots.old names.old.items }
    ensures done { names.new.items ≡ [] }
    ensures room { vec_capacity names.new ≡ vec_capacity names.old }
{
    while let Some(n) = names.pop() {
        slots[n.0 as usize] = None;
    }
}
