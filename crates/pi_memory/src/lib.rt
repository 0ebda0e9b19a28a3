// Memory of the guest: spaces of bytes with fill marks, and a transaction on one of them that is undone exactly.
// docs/memory.md states the rules. Only `add` and `begin` take memory.
//
// Proved: reads, writes, `bump` and transactions are exact on the bytes of the spaces; `abort` gives the spaces as they
// were at `begin`, `commit` changes none of them; only `add` and `begin` can be refused for want of memory, and then
// nothing is changed. Laws say what reads of any widths give after a write or a bump. The program does not use it yet.
#![tactic(auto)]

pub mod laws;
pub mod memory;
mod range;
