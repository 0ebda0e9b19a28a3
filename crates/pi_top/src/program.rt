// The program around the top call: the words behind its name, and the code with which it ends. docs/commands.md states both.

ghost use Rattle.std.specs.Prelude.{◌≡◌};
ghost use Rattle.std.specs.Process.{exit_status};
ghost use Rattle.pi_base.specs.Outside.{Told};
ghost use Rattle.pi_base.specs.Status.{code_of};
ghost use Rattle.pi_top.specs.Exits.{Exits, fault_line, fault_status};

use crate::answer::tool;
use pi_base::outside::{Sink, Store};
use pi_base::put::put_all;
use pi_base::status::Status;
use std::alloc::Global;
use std::env;
use std::io::{Error, ErrorKind};
use std::process::ExitCode;
use std::rt::Env;

/// Why the program has no words.
#[derive(Clone, Copy, Debug, PartialEq, Eq)]
pub enum WordsFault {
    /// There was no memory for them.
    OutOfMemory,
    /// One of them is no text.
    NoText,
}

impl WordsFault {
    /// The status with which the program ends then.
    fn status(&self) -> Status
        ensures { result ≡ fault_status self.now }
    {
        match self {
            WordsFault::OutOfMemory => Status::Memory,
            WordsFault::NoText => Status::Usage,
        }
    }

    /// The line that tells it.
    fn line(&self) -> &'static [u8]
        ensures { result.now ≡ fault_line self.now }
    {
        match self {
            WordsFault::OutOfMemory => b"out of memory\n",
            WordsFault::NoText => b"usage\n",
        }
    }

    /// Tells that line. A fault of the sink changes no status.
    #[tactic(auto, using(pi_base::proofs::Taken::told_of_puts))]
    fn tell<E: Sink>(&self, err: &mut E)
        ensures { Told (fault_line self.now) (E.view err.old) (E.view err.new) }
    {
        let _ = put_all(err, self.line());
    }
}

/// The words behind the program's name.
pub fn words_behind_name(rt: &(impl Env + AllocGlobal)) -> Result<Vec<String>, WordsFault> {
    let words = env::args(rt).map_err(words_fault)?;
    match words.skip(1).collect(rt.alloc()) {
        Ok(words) => Ok(words),
        Err(_) => Err(WordsFault::OutOfMemory),
    }
}

fn words_fault(error: Error) -> WordsFault {
    match error.kind() {
        ErrorKind::OutOfMemory => WordsFault::OutOfMemory,
        _ => WordsFault::NoText,
    }
}

/// Does what the words ask, or tells why there are none, and gives the code with which the program ends.
pub fn run_program<S: Store, O: Sink, E: Sink>(
    alloc: Global,
    words: &Result<Vec<String>, WordsFault>,
    store: &mut S,
    out: &mut O,
    err: &mut E,
) -> ExitCode
    ensures { Exits words.now (exit_status result) (S.view store.old) (S.view store.new) (O.view out.old) (O.view out.new) (E.view err.old) (E.view err.new) }
{
    match words {
        Ok(words) => {
            let status = tool(alloc, words, store, out, err);
            ExitCode::from(status.code())
        }
        Err(fault) => {
            fault.tell(err);
            ExitCode::from(fault.status().code())
        }
    }
}
