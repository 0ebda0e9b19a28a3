// The commands, a file for each, and which of them words ask for. docs/commands.md states the commands.
ghost use Rattle.std.specs.Prelude.{◌≡◌, option_map};
ghost use Rattle.pi_top.specs.Calls.{asked, of_call};

pub mod lazy;

use crate::commands::lazy::{LazyCall, read_lazy};

/// A command that words ask for.
#[derive(Clone, Copy)]
pub enum Call<'a> {
    Lazy(LazyCall<'a>),
}

/// The command that the words ask for, where they ask for one.
pub fn read_words<'a>(words: &'a Vec<String>) -> Option<Call<'a>>
    ensures { option_map of_call result ≡ asked words.now.items }
{
    let call = read_lazy(words)?;
    Some(Call::Lazy(call))
}
