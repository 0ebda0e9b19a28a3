// The addresses of texts, by a list of acts. These rows are acts:
//
//   set NAME ADDRESS          puts an address into an empty slot
//   fill FROM COUNT ADDRESS   so many, of slots and with addresses that follow each other; how many were made
//   addr NAME                 the address in a slot, or `no`
//   begin, commit, abort      a transaction
//   filled, sum               how many slots have an address; the sum of the addresses
//
// and this begins anew:
//
//   case NAMES                empty slots for so many names
ghost use Rattle.std.specs.Prelude.{◌≡◌, is_some, length};

use crate::acts::{Answer, Store, made, word};
use pi_intern::Literals;
use pi_model::numbers::{Addr, NameNo};
use pi_rows::fault::Fault;
use pi_rows::words::numbers_of;
use std::alloc::{AllocError, Global};

/// Slots, which tell neither how many they are nor whether a transaction is pending, and both.
#[derive(Drop)]
pub struct Watched {
    literals: Literals,
    names: u32,
    pending: bool,
    ghost counted: { length literals.now ≡ names },
    ghost watched: { is_some literals.begun ≡ pending },
}

impl Watched {
    fn new(alloc: Global, names: u32) -> Result<Watched, AllocError> {
        Ok(Watched {
            literals: Literals::new(alloc, names)?,
            names,
            pending: false,
        })
    }

    /// The address in a slot, if there is that slot.
    fn addr_of(&self, name: u32) -> Option<Option<Addr>> {
        if name >= self.names {
            return None;
        }
        Some(self.literals.addr_of(NameNo(name)))
    }

    fn set(&mut self, name: u32, at: u32) -> bool {
        if name >= self.names || self.literals.addr_of(NameNo(name)).is_some() {
            return false;
        }
        self.literals.set(NameNo(name), Addr(at));
        true
    }

    fn begin(&mut self) -> bool {
        if self.pending {
            return false;
        }
        self.literals.begin();
        self.pending = true;
        true
    }

    /// Ends the transaction if there is one.
    fn finish(&mut self, keeps: bool) -> bool {
        if !self.pending {
            return false;
        }
        if keeps {
            self.literals.commit();
        } else {
            self.literals.abort();
        }
        self.pending = false;
        true
    }
}

impl Store for Watched {
    fn of_case(alloc: Global, rest: &str) -> Result<Self, Fault> {
        Ok(Watched::new(alloc, rest.parse::<u32>()?)?)
    }

    fn act(&mut self, alloc: Global, verb: &str, rest: &str) -> Result<Answer, Fault> {
        let numbers = numbers_of::<u64>(alloc, rest)?;
        match (verb, numbers.as_slice()) {
            ("set", [name, at]) => Ok(made(self.set(word(*name)?, word(*at)?))),
            ("fill", [from, count, at]) => fill(self, word(*from)?, *count, word(*at)?),
            ("addr", [name]) => Ok(addr(self, word(*name)?)),
            ("begin", []) => Ok(made(self.begin())),
            ("commit", []) => Ok(made(self.finish(true))),
            ("abort", []) => Ok(made(self.finish(false))),
            ("filled", []) => Ok(Answer::Number(filled(self))),
            ("sum", []) => Ok(Answer::Number(sum(self))),
            _ => Err(Fault::NoRow),
        }
    }
}

fn addr(slots: &Watched, name: u32) -> Answer {
    match slots.addr_of(name) {
        Some(Some(at)) => Answer::Found(Some(at.0)),
        Some(None) => Answer::Found(None),
        None => Answer::Unmet,
    }
}

fn fill(slots: &mut Watched, from: u32, count: u64, at: u32) -> Result<Answer, Fault> {
    let mut made: u64 = 0;
    let (mut name, mut address) = (from, at);
    for _ in 0..count {
        if slots.set(name, address) {
            made = made.wrapping_add(1);
        }
        name = name.wrapping_add(1);
        address = address.wrapping_add(1);
    }
    Ok(Answer::Number(made))
}

fn filled(slots: &Watched) -> u64 {
    let mut count: u64 = 0;
    for name in 0..slots.names {
        if let Some(Some(_)) = slots.addr_of(name) {
            count = count.wrapping_add(1);
        }
    }
    count
}

fn sum(slots: &Watched) -> u64 {
    let mut sum: u64 = 0;
    for name in 0..slots.names {
        if let Some(Some(at)) = slots.addr_of(name) {
            sum = sum.wrapping_add(u64::from(at.0));
        }
    }
    sum
}
