// Parts of a file that are put one behind the other, and read again at the offsets at which they stand. docs/dex-format.md
// states how numbers and texts stand in bytes.
//
// Proved: each call of `put` adds exactly the bytes of its number, numbers, zeros or text, of which `specs/` say what they
// are; of a number that needs more bits than it gets these are the low ones. The lemmas of `proofs/Stands` say what stands
// at the offsets of things laid one behind the other, at multiples of four or in a table, and those of `proofs/ReadBack`
// that the readers of pi_bytes give back what was put.
#![tactic(auto)]

pub mod put;
