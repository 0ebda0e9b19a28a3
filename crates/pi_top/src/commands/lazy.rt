// The lazy run: one file, run under the machine without images. docs/commands.md states the command.
ghost use Rattle.std.specs.Prelude.{◌≡◌, [], ◌∷◌, map, option_map, codes, string_bytes, Some, false};
ghost use Rattle.pi_base.specs.Outside.{Keeps};
ghost use Rattle.pi_duty.specs.Command.{Lazy};
ghost use Rattle.pi_duty.specs.Words.{lazy_words};
ghost use Rattle.pi_top.specs.Statuses.{is_status};
ghost use Rattle.pi_top.specs.Answer.{Raised};
ghost use Rattle.pi_top.specs.Calls.{lazy_of};
ghost use Rattle.pi_top.specs.Outcome.{OutcomeGives, status_of};

use crate::file::{FileFault, run_file};
use crate::operands::{read_number, starts_with_dash};
use crate::outcome::Outcome;
use pi_base::outside::{Sink, Store, StoreError};
use pi_base::status::Status;
use pi_bytes::numbers::MOST_BYTES;
use std::alloc::Global;

/// The greatest limit on steps.
const MOST_STEPS: u64 = 1_000_000_000_000;

/// The words of a lazy run: the file's name, the descriptor of the main class, the limit on steps.
#[derive(Clone, Copy)]
pub struct LazyCall<'a> {
    pub file: &'a str,
    pub main: &'a str,
    pub steps: u64,
}

/// The lazy run that the words ask for, where they ask for one.
pub fn read_lazy<'a>(words: &'a Vec<String>) -> Option<LazyCall<'a>>
    ensures { option_map lazy_of result ≡ lazy_words (map string_bytes words.now.items) }
{
    let [command, file, main, steps] = words.as_slice() else {
        return None;
    };
    if command.as_str() != "lazy" {
        return None;
    }
    read_operands(file.as_str(), main.as_str(), steps.as_str())
}

/// The lazy run of these words behind the command.
fn read_operands<'a>(file: &'a str, main: &'a str, steps: &str) -> Option<LazyCall<'a>>
    ensures { option_map lazy_of result ≡ lazy_words (codes "lazy" ∷ file.now ∷ main.now ∷ steps.now ∷ []) }
{
    if starts_with_dash(file) || starts_with_dash(main) || starts_with_dash(steps) {
        return None;
    }
    let steps = read_number(steps, MOST_STEPS)?;
    Some(LazyCall { file, main, steps })
}

/// Makes the run: it reads the file and writes nothing to the store.
pub(crate) fn run_lazy<'a, S: Store, O: Sink>(
    alloc: Global,
    call: LazyCall<'a>,
    store: &mut S,
    out: &mut O,
) -> Outcome<'a>
    ensures gives { OutcomeGives (S.view store.old) (S.view store.new) (Some (Lazy (lazy_of call.entry))) result (O.view out.old) (O.view out.new) }
    ensures no_usage { is_status (status_of result) Status.Usage ≡ false }
    ensures raised { Raised (status_of result) (S.view store.old) (S.view store.new) (O.view out.old) (O.view out.new) }
    ensures keeps { Keeps (S.view store.old) (S.view store.new) }
{
    match store.read(alloc, call.file, MOST_BYTES) {
        Ok(file) => match run_file(alloc, call.main, call.steps, file.as_slice(), out) {
            Ok(end) => Outcome::Ran(end),
            Err(FileFault::Broken { rule, at }) => Outcome::Broken {
                file: call.file,
                rule,
                at,
            },
            Err(FileFault::NotBuilt) => Outcome::NotBuilt,
            Err(FileFault::OutOfMemory) => Outcome::Memory,
        },
        Err(StoreError::Missing) => Outcome::Missing(call.file),
        Err(StoreError::TooLarge) => Outcome::TooLarge(call.file),
        Err(StoreError::Failed) => Outcome::ReadFault(call.file),
        Err(StoreError::OutOfMemory) => Outcome::Memory,
    }
}
