// Rows on the parts below a program: arithmetic, instructions as units, numbers and texts in bytes, and lists; and on the
// small stores, each a list of acts: memory of the guest, the stack of frames, addresses of literals, and maps of marked
// words with the patch that moves them. docs/WORKING.md says how a case is added.
#![tactic(auto)]

pub mod acts;
pub mod arith;
pub mod frames;
mod insn_words;
pub mod insns;
pub mod lists;
pub mod literals;
pub mod memory;
pub mod numbers;
pub mod patch;
