// The stack of the machine's frames with their registers, in one store of words. docs/stores.md states the rules.
//
// Proved: `Frames` is a stack of frames and registers whose room is taken once; `push` is refused exactly where its words
// would pass the limit. The program does not use it yet.
#![tactic(auto)]

mod frames;

pub use frames::Frames;
