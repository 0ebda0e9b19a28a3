// Memory of the guest, by a list of acts. These rows are acts:
//
//   add BASE END TIMES HEX       a space up to END with these bytes so many times; its number
//   read WIDTH AT                the number in so many bytes
//   write WIDTH AT NUMBER        a number that so many bytes hold
//   sweep WIDTH AT TIMES NUMBER  so many writes, of numbers and to places that follow each other; how many were made
//   bump SPACE COUNT             moves a mark; where it was, or `full`
//   begin SPACE, commit, abort   a transaction
//   free BASE END                whether a range is free
//   find AT COUNT                the space of a place, or `no`
//   spaces, pending              how many there are; the space of the transaction, or `no`
//   base, mark, end SPACE        an address
//   bytes SPACE, digest SPACE    what stands below the mark, read byte by byte, and its digest
//
// and this begins anew:
//
//   case                         memory of no space
ghost use Rattle.std.specs.Prelude.{◌<◌, length, IsTrue};
ghost use Rattle.pi_memory.specs.Memory.{holder, IsBelow, IsOn};

use crate::acts::{Answer, Store, digest, made, word};
use pi_memory::memory::Memory;
use pi_model::numbers::{Addr, SpaceNo};
use pi_rows::fault::Fault;
use pi_rows::words::{bytes_of, copies, numbers_of};
use std::alloc::Global;

/// The memory that the acts have made.
#[derive(Drop)]
pub struct Spaces {
    memory: Memory<'static>,
}

/// An address of a space.
#[derive(Clone, Copy)]
enum Bound {
    Base,
    Mark,
    End,
}

impl Store for Spaces {
    fn of_case(alloc: Global, rest: &str) -> Result<Self, Fault> {
        if !rest.is_empty() {
            return Err(Fault::NoRow);
        }
        Ok(Spaces {
            memory: Memory::new(alloc),
        })
    }

    fn act(&mut self, alloc: Global, verb: &str, rest: &str) -> Result<Answer, Fault> {
        if verb == "add" {
            return add_row(&mut self.memory, alloc, rest);
        }
        let numbers = numbers_of::<u64>(alloc, rest)?;
        match numbers.as_slice() {
            [] => act_alone(&mut self.memory, verb),
            [space] => act_on_space(&mut self.memory, alloc, verb, *space),
            [space, count] if verb == "bump" => bump(&mut self.memory, space_no(*space)?, *count),
            [first, second] => look(&self.memory, verb, word(*first)?, word(*second)?),
            longer => act_on_more(&mut self.memory, verb, longer),
        }
    }
}

/// Adds the space of a row.
fn add_row(memory: &mut Memory, alloc: Global, rest: &str) -> Result<Answer, Fault> {
    let (places, digits) = rest.rsplit_once(' ').ok_or(Fault::NoRow)?;
    let piece = bytes_of(alloc, digits)?;
    match numbers_of::<u64>(alloc, places)?.as_slice() {
        [base, end, times] => {
            let bytes = copies(alloc, *times, piece.as_slice())?;
            add(memory, alloc, word(*base)?, word(*end)?, bytes.as_slice())
        }
        _ => Err(Fault::NoRow),
    }
}

/// Adds a space if the condition is met.
fn add(
    memory: &mut Memory,
    alloc: Global,
    base: u32,
    end: u32,
    bytes: &[u8],
) -> Result<Answer, Fault> {
    if memory.pending().is_some() || memory.spaces() >= 9 {
        return Ok(Answer::Unmet);
    }
    let fits = base as u64 + bytes.len() as u64 <= end as u64 && end <= 0x8000_0000;
    if !fits || base % 8 != 0 || bytes.len() % 8 != 0 {
        return Ok(Answer::Unmet);
    }
    if !memory.is_free(Addr(base), Addr(end)) {
        return Ok(Answer::Unmet);
    }
    let space = memory.add(alloc, Addr(base), bytes, Addr(end))?;
    Ok(Answer::Found(Some(u32::from(space.0))))
}

/// Acts of no number.
fn act_alone(memory: &mut Memory, verb: &str) -> Result<Answer, Fault> {
    match verb {
        "commit" => Ok(finish(memory, true)),
        "abort" => Ok(finish(memory, false)),
        "spaces" => Ok(Answer::Number(u64::from(memory.spaces()))),
        "pending" => Ok(space_or_no(memory.pending())),
        _ => Err(Fault::NoRow),
    }
}

/// Acts of the number of a space.
fn act_on_space(
    memory: &mut Memory,
    alloc: Global,
    verb: &str,
    number: u64,
) -> Result<Answer, Fault> {
    let space = space_no(number)?;
    match verb {
        "base" => Ok(bound_of(memory, space, Bound::Base)),
        "mark" => Ok(bound_of(memory, space, Bound::Mark)),
        "end" => Ok(bound_of(memory, space, Bound::End)),
        "begin" => begin(memory, alloc, space),
        "bytes" => content(memory, alloc, space),
        "digest" => match content(memory, alloc, space)? {
            Answer::Bytes(bytes) => digest(alloc, bytes.as_slice()),
            other => Ok(other),
        },
        _ => Err(Fault::NoRow),
    }
}

fn look(memory: &Memory, verb: &str, first: u32, second: u32) -> Result<Answer, Fault> {
    match verb {
        "read" => match read(memory, first, second) {
            Some(number) => Ok(Answer::Number(number)),
            None => Ok(Answer::Unmet),
        },
        "free" => Ok(Answer::Truth(memory.is_free(Addr(first), Addr(second)))),
        "find" => Ok(space_or_no(memory.space_of(Addr(first), second))),
        _ => Err(Fault::NoRow),
    }
}

/// Writes.
fn act_on_more(memory: &mut Memory, verb: &str, numbers: &[u64]) -> Result<Answer, Fault> {
    match (verb, numbers) {
        ("write", [width, at, number]) => {
            Ok(made(write(memory, word(*width)?, word(*at)?, *number)))
        }
        ("sweep", [width, at, times, number]) => {
            let count = sweep(memory, word(*width)?, word(*at)?, *times, *number);
            Ok(Answer::Number(count))
        }
        _ => Err(Fault::NoRow),
    }
}

fn bound_of(memory: &Memory, space: SpaceNo, bound: Bound) -> Answer {
    if space.0 >= memory.spaces() {
        return Answer::Unmet;
    }
    let at = match bound {
        Bound::Base => memory.base(space),
        Bound::Mark => memory.mark(space),
        Bound::End => memory.end(space),
    };
    Answer::Found(Some(at.0))
}

/// Whether so many bytes at an address may be written.
fn may_write(memory: &Memory, at: u32, width: u32) -> bool
    ensures below { IsTrue result → IsBelow memory.now.spaces at width }
    ensures inside { IsTrue result → IsOn memory.now.undo (holder memory.now.spaces at width) }
{
    match (memory.space_of(Addr(at), width), memory.pending()) {
        (Some(space), Some(on)) => space == on,
        (Some(_), None) => true,
        (None, _) => false,
    }
}

/// Stores a number if the condition is met.
fn write(memory: &mut Memory, width: u32, at: u32, number: u64) -> bool {
    if !may_write(memory, at, width) {
        return false;
    }
    match width {
        1 => memory.write8(Addr(at), (number & 0xff) as u8),
        2 if at % 2 == 0 => memory.write16(Addr(at), (number & 0xffff) as u16),
        4 if at % 4 == 0 => memory.write32(Addr(at), (number & 0xffff_ffff) as u32),
        8 if at % 8 == 0 => memory.write64(Addr(at), number),
        _ => return false,
    }
    true
}

/// Stores numbers one behind the other, and counts those that were stored.
fn sweep(memory: &mut Memory, width: u32, at: u32, times: u64, number: u64) -> u64 {
    let mut count: u64 = 0;
    let mut place = at;
    for further in 0..times {
        if write(memory, width, place, number.wrapping_add(further)) {
            count = count.wrapping_add(1);
        }
        place = place.wrapping_add(width);
    }
    count
}

fn read(memory: &Memory, width: u32, at: u32) -> Option<u64> {
    memory.space_of(Addr(at), width)?;
    match width {
        1 => Some(u64::from(memory.read8(Addr(at)))),
        2 if at % 2 == 0 => Some(u64::from(memory.read16(Addr(at)))),
        4 if at % 4 == 0 => Some(u64::from(memory.read32(Addr(at)))),
        8 if at % 8 == 0 => Some(memory.read64(Addr(at))),
        _ => None,
    }
}

fn bump(memory: &mut Memory, space: SpaceNo, count: u64) -> Result<Answer, Fault> {
    let may = match memory.pending() {
        Some(on) => on == space,
        None => true,
    };
    if space.0 >= memory.spaces() || count % 8 != 0 || !may {
        return Ok(Answer::Unmet);
    }
    match memory.bump(space, count) {
        Some(at) => Ok(Answer::Found(Some(at.0))),
        None => Ok(Answer::Full),
    }
}

fn begin(memory: &mut Memory, alloc: Global, space: SpaceNo) -> Result<Answer, Fault> {
    if space.0 >= memory.spaces() || memory.pending().is_some() {
        return Ok(Answer::Unmet);
    }
    memory.begin(alloc, space)?;
    Ok(Answer::Done)
}

/// Ends the transaction if there is one.
fn finish(memory: &mut Memory, keeps: bool) -> Answer {
    if memory.pending().is_none() {
        return Answer::Unmet;
    }
    if keeps {
        memory.commit();
    } else {
        memory.abort();
    }
    Answer::Done
}

fn content(memory: &Memory, alloc: Global, space: SpaceNo) -> Result<Answer, Fault> {
    if space.0 >= memory.spaces() {
        return Ok(Answer::Unmet);
    }
    Ok(Answer::Bytes(bytes_in(memory, alloc, space)?))
}

/// The bytes of a space, each by a read of its own.
fn bytes_in(memory: &Memory, alloc: Global, space: SpaceNo) -> Result<Vec<u8>, Fault>
    requires { space.0 < length memory.now.spaces }
{
    let mut bytes = Vec::new(alloc);
    for at in memory.base(space).0..memory.mark(space).0 {
        if memory.space_of(Addr(at), 1).is_some() {
            bytes.push(memory.read8(Addr(at)))?;
        }
    }
    Ok(bytes)
}

fn space_no(number: u64) -> Result<SpaceNo, Fault> {
    Ok(SpaceNo(u8::try_from(number)?))
}

fn space_or_no(space: Option<SpaceNo>) -> Answer {
    match space {
        Some(space) => Answer::Found(Some(u32::from(space.0))),
        None => Answer::Found(None),
    }
}
