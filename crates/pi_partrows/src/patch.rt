// Marked words and their moving, by a list of acts. These rows are acts:
//
//   mark PLACE               marks a place of the map
//   marks FROM STEP COUNT    so many with a step between each two; how many there were
//   has PLACE                whether it is marked
//   places, marked           how many places there are; how many are marked
//   bytes TIMES HEX          the bytes are these so many times
//   patch DELTA              moves the words; `done`, or the fault
//   shown, digest            the bytes, and their digest
//
// and this begins anew:
//
//   case PLACES              a map of so many places, none marked, and no bytes
use crate::acts::{Answer, Store, digest, made, word};
use pi_reloc::{Bitmap, patch};
use pi_rows::fault::Fault;
use pi_rows::words::{copies_of, numbers_of};
use std::alloc::Global;

/// A map and bytes, as the acts have left them.
#[derive(Drop)]
pub struct Moves {
    map: Bitmap,
    bytes: Vec<u8>,
}

impl Store for Moves {
    fn of_case(alloc: Global, rest: &str) -> Result<Self, Fault> {
        Ok(Moves {
            map: Bitmap::new(alloc, rest.parse::<u32>()?)?,
            bytes: Vec::new(alloc),
        })
    }

    fn act(&mut self, alloc: Global, verb: &str, rest: &str) -> Result<Answer, Fault> {
        match verb {
            "bytes" => {
                self.bytes = copies_of(alloc, rest)?;
                Ok(Answer::Done)
            }
            "patch" => {
                let delta = rest.parse::<i64>()?;
                moved(alloc, &mut self.bytes, &self.map, delta)
            }
            "shown" => Ok(Answer::Bytes(self.bytes.clone()?)),
            "digest" => digest(alloc, self.bytes.as_slice()),
            _ => {
                let numbers = numbers_of::<u64>(alloc, rest)?;
                act_on_map(&mut self.map, verb, numbers.as_slice())
            }
        }
    }
}

/// Moves the marked words, if there are no more places than words.
fn moved(alloc: Global, bytes: &mut Vec<u8>, map: &Bitmap, delta: i64) -> Result<Answer, Fault> {
    if u64::from(map.words()) * 4 > bytes.len() as u64 {
        return Ok(Answer::Unmet);
    }
    match patch(bytes.as_mut_slice(), map, delta) {
        Ok(()) => Ok(Answer::Done),
        Err(fault) => Ok(Answer::Text(format!(in alloc; "{fault}")?)),
    }
}

fn act_on_map(map: &mut Bitmap, verb: &str, numbers: &[u64]) -> Result<Answer, Fault> {
    match (verb, numbers) {
        ("places", []) => Ok(Answer::Found(Some(map.words()))),
        ("marked", []) => Ok(Answer::Number(marked(map))),
        ("mark", [place]) => Ok(made(mark(map, word(*place)?))),
        ("has", [place]) => Ok(has(map, word(*place)?)),
        ("marks", [from, step, count]) => {
            let count = marks(map, word(*from)?, word(*step)?, *count);
            Ok(Answer::Number(count))
        }
        _ => Err(Fault::NoRow),
    }
}

fn mark(map: &mut Bitmap, place: u32) -> bool {
    if place >= map.words() {
        return false;
    }
    map.mark(place);
    true
}

fn marks(map: &mut Bitmap, from: u32, step: u32, count: u64) -> u64 {
    let mut made: u64 = 0;
    let mut place = from;
    for _ in 0..count {
        if mark(map, place) {
            made = made.wrapping_add(1);
        }
        place = place.wrapping_add(step);
    }
    made
}

fn has(map: &Bitmap, place: u32) -> Answer {
    if place >= map.words() {
        return Answer::Unmet;
    }
    Answer::Truth(map.has(place))
}

fn marked(map: &Bitmap) -> u64 {
    let mut count: u64 = 0;
    for place in 0..map.words() {
        if map.has(place) {
            count = count.wrapping_add(1);
        }
    }
    count
}
