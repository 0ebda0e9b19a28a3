// The top call: the words of a command, what it reads, runs and writes, and how it answers; and the program around it.
// docs/commands.md states the commands, docs/answers.md each answer, and docs/machine.md the machine whose runs they make.
//
// Proved, of `tool`: over every word list, every store and all sinks it obeys its words, by the record `Obeys` of
// specs/Obeys.antt. Of `run_program`: the code with which the program ends is the number of the status for words that were
// obeyed, over any store and sinks; where it has no words, their fault is told and has its code (`Exits`).
#![tactic(auto)]

mod answer;
mod commands;
mod file;
mod lines;
mod operands;
mod outcome;
mod plain;
mod program;

pub use answer::tool;
pub use program::{WordsFault, run_program, words_behind_name};
