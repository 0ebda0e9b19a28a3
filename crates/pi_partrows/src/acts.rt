// Subjects that are a store and a list of acts on it. An act is a row, and its answer is a word. Beside its own acts each
// of them has these rows:
//
//   case ..      a new store
//   tell         tells the answers of the acts since the last such row
//
// An act whose condition is not met is not made, and its answer is `none`.
use pi_rows::fault::Fault;
use pi_rows::follow::Subject;
use pi_rows::told::Told;
use sha1::Sha1;
use std::alloc::Global;

/// What acts are made on.
pub trait Store {
    /// A new one, as the words of a case say.
    fn of_case(alloc: Global, rest: &str) -> Result<Self, Fault>;

    /// Makes an act.
    fn act(&mut self, alloc: Global, verb: &str, rest: &str) -> Result<Answer, Fault>;
}

/// A store as the acts have left it, with what they answered.
#[derive(Drop)]
pub struct Acts<S> {
    store: Option<S>,
    answers: Told,
}

impl<S: Store + Drop> Acts<S> {
    /// No store, until a case makes one.
    pub fn new(alloc: Global) -> Acts<S> {
        Acts {
            store: None,
            answers: Told::new(alloc),
        }
    }

    /// Makes an act, and keeps its answer.
    fn make(&mut self, alloc: Global, verb: &str, rest: &str) -> Result<(), Fault> {
        let Some(store) = self.store.as_mut() else {
            return Err(Fault::NoRow);
        };
        let answer = store.act(alloc, verb, rest)?;
        if self.answers.is_begun() {
            self.answers.words(" ")?;
        }
        add_answer(&mut self.answers, &answer)
    }
}

impl<S: Store + Drop> Subject for Acts<S> {
    fn follow(
        &mut self,
        rt: &HostRuntime,
        verb: &str,
        rest: &str,
        told: &mut Told,
    ) -> Result<(), Fault> {
        let alloc = rt.alloc();
        match verb {
            "case" => {
                self.store = None;
                self.store = Some(S::of_case(alloc, rest)?);
                Ok(())
            }
            "tell" => {
                told.words(self.answers.as_str())?;
                self.answers = Told::new(alloc);
                Ok(())
            }
            _ => self.make(alloc, verb, rest),
        }
    }
}

/// What an act answers.
#[derive(Drop)]
pub enum Answer {
    /// It was made.
    Done,
    /// Its condition is not met, and it was not made.
    Unmet,
    /// There is no room for what it asks.
    Full,
    Truth(bool),
    /// A number, where there is one.
    Found(Option<u32>),
    Number(u64),
    Bytes(Vec<u8>),
    Text(String),
}

fn add_answer(told: &mut Told, answer: &Answer) -> Result<(), Fault> {
    match answer {
        Answer::Done => told.words("done"),
        Answer::Unmet => told.words("none"),
        Answer::Full => told.words("full"),
        Answer::Truth(true) => told.words("yes"),
        Answer::Truth(false) | Answer::Found(None) => told.words("no"),
        Answer::Found(Some(number)) => told.value(number),
        Answer::Number(number) => told.value(number),
        Answer::Bytes(bytes) if bytes.is_empty() => told.words("-"),
        Answer::Bytes(bytes) => told.digits(bytes.as_slice()),
        Answer::Text(text) => told.words(text.as_str()),
    }
}

/// What tells whether an act was made.
pub fn made(was_made: bool) -> Answer {
    if was_made {
        Answer::Done
    } else {
        Answer::Unmet
    }
}

/// A number, where the condition of its act is met.
pub fn found_or_unmet(number: Option<u32>) -> Answer {
    match number {
        Some(number) => Answer::Found(Some(number)),
        None => Answer::Unmet,
    }
}

/// The digest of many bytes as an answer.
pub fn digest(alloc: Global, bytes: &[u8]) -> Result<Answer, Fault> {
    Ok(Answer::Bytes(Vec::from_slice(alloc, &Sha1::digest(bytes))?))
}

/// A number of a row that is to be a word.
pub fn word(number: u64) -> Result<u32, Fault> {
    Ok(u32::try_from(number)?)
}
