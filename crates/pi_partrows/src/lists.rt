// A list of numbers of 16 bits. The rows:
//
//   case                  begins anew with the empty list
//   list NUMBER..         the list of these
//   push NUMBER           one more
//   count TO              the numbers from 0 up to, not including, this one, pushed one by one
//   extend NUMBER..       more of them, copied
//   append NUMBER..       more of them, moved
//   double                a copy of the list, moved behind it
//   repeat                the list of the same slice, copied behind it
//   truncate LENGTH       the first ones
//   vector                the list is made a vector, and that a list again
//   at PLACE, get PLACE   the number at a place
//   same NUMBER..         whether it has the same numbers as the list of these
//   copied                whether it has the same numbers as its copy
//   tell                  its length, whether it is empty, and its numbers
use pi_model::listed::Units;
use pi_rows::fault::Fault;
use pi_rows::follow::Subject;
use pi_rows::told::Told;
use pi_rows::words::numbers_of;
use std::alloc::{AllocError, Global};
use std::mem;

/// The list that rows have described.
#[derive(Drop)]
pub struct Lists {
    list: Units,
}

impl Lists {
    pub fn new(alloc: Global) -> Lists {
        Lists {
            list: Units::new(alloc),
        }
    }
}

impl Subject for Lists {
    fn follow(
        &mut self,
        rt: &HostRuntime,
        verb: &str,
        rest: &str,
        told: &mut Told,
    ) -> Result<(), Fault> {
        let alloc = rt.alloc();
        let numbers = numbers_of::<u16>(alloc, rest)?;
        if !change(alloc, &mut self.list, verb, numbers.as_slice())? {
            ask(told, alloc, &self.list, verb, numbers.as_slice())?;
        }
        Ok(())
    }
}

/// Changes the list. The answer is whether the row is one that does.
fn change(
    alloc: Global,
    list: &mut Units,
    verb: &str,
    numbers: &[u16],
) -> Result<bool, AllocError> {
    match (verb, numbers) {
        ("case", []) => *list = Units::new(alloc),
        ("list", _) => *list = Units::from_slice(alloc, numbers)?,
        ("push", [number]) => list.push(*number)?,
        ("count", [to]) => count(list, *to)?,
        ("extend", _) => list.extend_from_slice(numbers)?,
        ("append", _) => list.append(Units::from_slice(alloc, numbers)?)?,
        ("double", []) => {
            let copy = list.copy()?;
            list.append(copy)?;
        }
        ("repeat", []) => {
            let same = Units::from_slice(alloc, list.as_slice())?;
            list.extend_from_slice(same.as_slice())?;
        }
        ("truncate", [length]) => list.truncate(usize::from(*length)),
        ("vector", []) => {
            let vector = mem::replace(list, Units::new(alloc)).into_vec();
            *list = Units::from_vec(vector);
        }
        _ => return Ok(false),
    }
    Ok(true)
}

fn count(list: &mut Units, to: u16) -> Result<(), AllocError> {
    for number in 0..to {
        list.push(number)?;
    }
    Ok(())
}

/// Adds what a row asks of the list.
fn ask(
    told: &mut Told,
    alloc: Global,
    list: &Units,
    verb: &str,
    numbers: &[u16],
) -> Result<(), Fault> {
    match (verb, numbers) {
        ("at", [place]) => add_at(told, list, usize::from(*place)),
        ("get", [place]) => told.debug(&list.get(usize::from(*place))),
        ("same", _) => {
            let other = Units::from_slice(alloc, numbers)?;
            told.value(&list.same(&other))
        }
        ("copied", []) => {
            let copy = list.copy()?;
            told.value(&list.same(&copy))
        }
        ("tell", []) => add_all(told, list),
        _ => Err(Fault::NoRow),
    }
}

fn add_at(told: &mut Told, list: &Units, place: usize) -> Result<(), Fault> {
    if place < list.len() {
        told.value(&list.at(place))
    } else {
        told.words("none")
    }
}

fn add_all(told: &mut Told, list: &Units) -> Result<(), Fault> {
    told.value(&list.len())?;
    told.words(if list.is_empty() {
        " numbers, empty: "
    } else {
        " numbers: "
    })?;
    told.debug(&list.as_slice())
}
