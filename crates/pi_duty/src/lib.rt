// What a command owes: the relation between its words, what the store holds, and what it writes, prints and answers; and
// which programs are small. The definitions stand in specs/, and docs/commands.md states them in words.
//
// Proved: for its words and for what the store holds a command owes one thing at most (`owes_once`), and what a small
// program looks like that a file says (`small_class`, `small_shape`). The worked file is followed from the program that its
// bytes say to what it owes in proofs/Five.antt; that it breaks no rule is a premise there, since its signature is not
// computed by the prover, and is a case.
#![tactic(auto)]

ghost use Rattle.pi_duty.specs.Duty.{OwesOnce, ReadersWriteNothing};
ghost use Rattle.pi_duty.specs.Shape.{SmallHasClass, SmallHasShape};

use pi_format::core_fits;
use pi_said::{classes_are_of_file, said_keeps};

/// For its words and for what the store holds a command owes one thing at most.
pub fn owes_once()
    ensures { OwesOnce }
{}

/// A command that only reads owes no write to the store.
pub fn readers_write_nothing()
    ensures { ReadersWriteNothing }
{}

/// The law that a small program has one class behind those of the first file.
pub fn small_class()
    ensures { SmallHasClass }
{
    core_fits();
    said_keeps();
}

/// The law of what such a program looks like.
pub fn small_shape()
    ensures { SmallHasShape }
{
    core_fits();
    said_keeps();
    classes_are_of_file();
}
