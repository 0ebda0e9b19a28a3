// Where a plain run stands, and what it works on. docs/machine.md names the moves between the stages.

use pi_model::describe::{ClassDesc, Code};
use std::marker::Model;

/// How far the run has come.
#[derive(Clone, Copy, PartialEq, Eq)]
pub enum Stage {
    /// Nothing has run.
    Untouched,
    /// The class was entered.
    Entered,
    /// Its static values are set.
    Valued,
    /// Its initialiser runs.
    Initialising,
    /// Its initialiser has returned.
    Finishing,
    /// The class is done.
    Ready,
    /// Main runs.
    Running,
    /// Main has returned.
    Over,
}

/// The registers of a code, without the argument's, and the place of its next instruction in the list.
#[derive(Drop)]
pub struct Frame {
    pub line: usize,
    pub registers: Vec<u32>,
}

impl Model for Frame {
    ghost use Rattle.pi_top.specs.Places.{Registers};

    ghost Value = { Registers };

    ghost view = { λ f. record { line = f.line; words = f.registers.items } };
}

/// The state of a plain run.
#[derive(Drop)]
pub struct Place {
    pub stage: Stage,
    pub clinit: Frame,
    pub main: Frame,
    pub statics: Vec<u32>,
}

/// The one class of a small file, with its codes.
#[derive(Clone, Copy)]
pub struct Small<'a> {
    pub class: &'a ClassDesc,
    pub clinit: Option<&'a Code>,
    pub main: &'a Code,
}
