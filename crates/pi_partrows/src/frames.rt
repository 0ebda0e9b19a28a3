// The stack of frames, by a list of acts. These rows are acts:
//
//   push METHOD REGISTERS    a frame on top, or `full`
//   pop                      takes it away
//   reg REGISTER             a register of the top frame
//   set REGISTER WORD        puts a word there
//   pc, method               the top frame's
//   go PC                    makes it go on there
//   depth                    the number of frames
//
// and this begins anew:
//
//   case WORDS               no frames, and room for so many words
ghost use Rattle.std.specs.Prelude.{◌≡◌};
ghost use Rattle.pi_partrows.specs.Counted.{registers};

use crate::acts::{Answer, Store, found_or_unmet, made, word};
use pi_frames::Frames;
use pi_model::numbers::MethodNo;
use pi_rows::fault::Fault;
use pi_rows::words::numbers_of;
use std::alloc::{AllocError, Global};
use std::collections::VecDeque;

/// Frames, which do not tell how many registers they have, and those numbers.
#[derive(Drop)]
pub struct Counted {
    frames: Frames,
    /// The top frame's stands first.
    counts: VecDeque<u16>,
    ghost counted: { registers frames.frames ≡ counts.items },
}

impl Counted {
    fn new(alloc: Global, words: u32) -> Result<Counted, AllocError> {
        Ok(Counted {
            frames: Frames::new(alloc, words)?,
            counts: VecDeque::new(alloc),
        })
    }

    fn push(&mut self, method: MethodNo, registers: u16) -> Result<Answer, AllocError> {
        self.counts.push_front(registers)?;
        match self.frames.push(method, registers) {
            Some(()) => Ok(Answer::Done),
            None => {
                let _ = self.counts.pop_front();
                Ok(Answer::Full)
            }
        }
    }

    fn pop(&mut self) -> bool {
        match self.counts.pop_front() {
            Some(_) => {
                self.frames.pop();
                true
            }
            None => false,
        }
    }

    fn register(&self, register: u16) -> Option<u32> {
        match self.counts.front() {
            Some(count) if register < *count => Some(self.frames.reg(register)),
            _ => None,
        }
    }

    fn set(&mut self, register: u16, word: u32) -> bool {
        match self.counts.front() {
            Some(count) if register < *count => {
                self.frames.set(register, word);
                true
            }
            _ => false,
        }
    }

    fn method(&self) -> Option<u32> {
        if self.counts.is_empty() {
            return None;
        }
        Some(self.frames.method().0)
    }

    fn pc(&self) -> Option<u32> {
        if self.counts.is_empty() {
            return None;
        }
        Some(self.frames.pc())
    }

    fn go(&mut self, pc: u32) -> bool {
        if self.counts.is_empty() {
            return false;
        }
        self.frames.set_pc(pc);
        true
    }
}

impl Store for Counted {
    fn of_case(alloc: Global, rest: &str) -> Result<Self, Fault> {
        Ok(Counted::new(alloc, rest.parse::<u32>()?)?)
    }

    fn act(&mut self, alloc: Global, verb: &str, rest: &str) -> Result<Answer, Fault> {
        let numbers = numbers_of::<u64>(alloc, rest)?;
        match (verb, numbers.as_slice()) {
            ("push", [method, registers]) => push(self, word(*method)?, *registers),
            ("pop", []) => Ok(made(self.pop())),
            ("reg", [register]) => Ok(found_or_unmet(self.register(u16::try_from(*register)?))),
            ("set", [register, value]) => {
                Ok(made(self.set(u16::try_from(*register)?, word(*value)?)))
            }
            ("pc", []) => Ok(found_or_unmet(self.pc())),
            ("method", []) => Ok(found_or_unmet(self.method())),
            ("go", [pc]) => Ok(made(self.go(word(*pc)?))),
            ("depth", []) => Ok(Answer::Found(Some(self.frames.depth()))),
            _ => Err(Fault::NoRow),
        }
    }
}

fn push(frames: &mut Counted, method: u32, registers: u64) -> Result<Answer, Fault> {
    Ok(frames.push(MethodNo(method), u16::try_from(registers)?)?)
}
