// The top call. docs/commands.md states the commands.
ghost use Rattle.std.specs.Prelude.{◌≡◌, ◌⊎◌, ◌↔◌, map, string_bytes, None, IsTrue};
ghost use Rattle.pi_base.specs.Outside.{Keeps};
ghost use Rattle.pi_duty.specs.Command.{writes_nothing};
ghost use Rattle.pi_top.specs.Answer.{OwesOver, Raised, Wrote};
ghost use Rattle.pi_top.specs.Obeys.{Obeys};
ghost use Rattle.pi_top.specs.Calls.{asked};
ghost use Rattle.pi_top.specs.Outcome.{OutcomeGives, status_of};

use crate::commands::lazy::run_lazy;
use crate::commands::{Call, read_words};
use crate::outcome::Outcome;
use pi_base::outside::{Sink, Store};
use pi_base::status::Status;
use pi_duty::{owes_once, small_class};
use std::alloc::Global;

/// Does what the words of a command ask, over a store and two sinks: its output goes to `out`, and the lines that tell how
/// it ended go to `err`.
pub fn tool<S: Store, O: Sink, E: Sink>(
    alloc: Global,
    words: &Vec<String>,
    store: &mut S,
    out: &mut O,
    err: &mut E,
) -> Status
    ensures { Obeys (map string_bytes words.now.items) result (S.view store.old) (S.view store.new) (O.view out.old) (O.view out.new) (E.view err.old) (E.view err.new) }
{
    owes_once();
    small_class();
    let outcome = answer(alloc, words, store, out);
    outcome.tell(err);
    outcome.status()
}

/// Makes the command that the words ask for, and says how it ended.
fn answer<'a, S: Store, O: Sink>(
    alloc: Global,
    words: &'a Vec<String>,
    store: &mut S,
    out: &mut O,
) -> Outcome<'a>
    ensures gives { OutcomeGives (S.view store.old) (S.view store.new) (asked words.now.items) result (O.view out.old) (O.view out.new) }
    ensures usage { (status_of result ≡ Status.Usage) ↔ (asked words.now.items ≡ None) }
    ensures raised { Raised (status_of result) (S.view store.old) (S.view store.new) (O.view out.old) (O.view out.new) }
    ensures wrote { Keeps (S.view store.old) (S.view store.new) ⊎ Wrote (OwesOver (S.view store.old) (asked words.now.items)) (S.view store.old) (S.view store.new) }
    ensures only_reads { IsTrue (writes_nothing (asked words.now.items)) → Keeps (S.view store.old) (S.view store.new) }
{
    match read_words(words) {
        Some(Call::Lazy(call)) => run_lazy(alloc, call, store, out),
        None => Outcome::Usage,
    }
}
