// How the top call ended, the status of it, and the lines that tell it. docs/commands.md states both.
ghost use Rattle.std.specs.Prelude.{◌≡◌};
ghost use Rattle.pi_base.specs.Outside.{Told};

use crate::lines::{tell, tell_broken, tell_limit, tell_made, tell_name};
use crate::plain::run::RunEnd;
use pi_base::outside::Sink;
use pi_base::status::Status;

/// How a command ended, with what its lines name.
#[derive(Clone, Copy)]
pub(crate) enum Outcome<'a> {
    Usage,
    Missing(&'a str),
    ReadFault(&'a str),
    TooLarge(&'a str),
    Memory,
    Broken { file: &'a str, rule: u8, at: u32 },
    NotBuilt,
    Ran(RunEnd),
}

impl Outcome<'_> {
    ghost use Rattle.pi_top.specs.Outcome.{lines_of, status_of};

    pub(crate) fn status(&self) -> Status
        ensures { result ≡ status_of self.now }
    {
        match self {
            Outcome::Usage => Status::Usage,
            Outcome::Missing(_) => Status::Missing,
            Outcome::ReadFault(_) => Status::ReadFault,
            Outcome::TooLarge(_) => Status::TooLarge,
            Outcome::Memory => Status::Memory,
            Outcome::Broken { .. } => Status::Dex,
            Outcome::NotBuilt => Status::NotBuilt,
            Outcome::Ran(RunEnd::Returned { .. }) => Status::Done,
            Outcome::Ran(RunEnd::Limited { .. }) => Status::Steps,
            Outcome::Ran(RunEnd::OutFault) => Status::OutFault,
        }
    }

    /// Tells the lines of the outcome.
    pub(crate) fn tell<E: Sink>(&self, err: &mut E)
        ensures { Told (lines_of self.now) (E.view err.old) (E.view err.new) }
    {
        match self {
            Outcome::Usage => tell(err, b"usage\n"),
            Outcome::Missing(name) => tell_name(err, b"missing ", name),
            Outcome::ReadFault(name) => tell_name(err, b"read fault ", name),
            Outcome::TooLarge(name) => tell_name(err, b"too large ", name),
            Outcome::Memory => tell(err, b"out of memory\n"),
            Outcome::Broken { file, rule, at } => tell_broken(err, file, *rule, *at),
            Outcome::NotBuilt => tell(err, b"not built\n"),
            Outcome::Ran(RunEnd::Returned { steps }) => tell_made(err, *steps),
            Outcome::Ran(RunEnd::Limited { steps }) => tell_limit(err, *steps),
            Outcome::Ran(RunEnd::OutFault) => tell(err, b"output fault\n"),
        }
    }
}
