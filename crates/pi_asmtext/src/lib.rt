// Reads assembler text into lines of tokens. docs/assembler.md states both.
//
// Proved: `parse` answers the lines of a text with their tokens, each as it is written and with its place, only where the
// text keeps the grammar, and else the first place at which what stands so far begins no text of the grammar. The grammar
// is a pattern over the symbols of the text, and the words are patterns over their units. The program does not use it yet.
#![tactic(auto)]

mod fault;
mod file;
mod forms;
mod member;
mod next;
mod operand;
mod reading;
mod state;
mod table;
mod tokens;
mod words;

pub use fault::{AsmError, AsmKind};
pub use file::{AsmFile, AsmLine, Token, Tokens};
pub use reading::parse;
