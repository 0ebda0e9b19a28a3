// Reads numbers and texts from bytes, and writes texts, as docs/dex-format.md states them under "Numbers" and "MUTF-8"; and
// the checksum that it states with the header.
//
// Proved: each call of `Cursor` gives exactly the number or the bytes that stand at its place and moves behind them, or
// names why not and stays (`exact`, `stands`); `short` and `long` say by equivalence when a number of variable length is
// cut or too long. `mutf8_units` reads the one spelling of so many units and a 0, or names the first byte that begins no
// unit (`exact`, `spelled`, `bad`); `mutf8_of` writes it; the law `written_is_read` leads from one to the other, whatever
// follows. `half`, `word`, `is_in_file` and `adler32` are exact.
#![tactic(auto)]

pub mod cursor;
pub mod fault;
pub mod leb;
pub mod mutf8;
pub mod numbers;
pub mod sums;
