// Laws between reading and writing, over every instruction and every list of units.

ghost use Rattle.std.specs.Prelude.{◌≡◌, ◌<◌, ℕ, List, ◌++◌, length, slice_index, IsSome, Some, Ok};
ghost use Rattle.pi_insn.specs.declared.raw.RawInsn.{RawInsn};
ghost use Rattle.pi_insn.specs.Reading.{insn_in, insn_at};
ghost use Rattle.pi_insn.specs.Writing.{encoding, IsInTable};

/// What is written is read again as the same instruction, whatever units stand before it and whatever units follow.
pub fn written_is_read()
    ensures { (i : RawInsn) (units before rest : List ℕ) → IsInTable i → encoding i ≡ Some units → insn_at (before ++ (units ++ rest)) (length before) ≡ Ok (i, length units) }
{}

/// The table is read the same both ways: what is read has an opcode that the table gives to it, so it may be written.
pub fn read_is_in_table()
    ensures { (units : List ℕ) (i : RawInsn) (n : ℕ) → insn_in units ≡ Ok (i, n) → IsInTable i }
{}

/// An operand that some units say fits its format. So, with the law on what is written, operands fit exactly where
/// there are units that are read as the instruction.
pub fn read_fits()
    ensures { (units : List ℕ) (i : RawInsn) (n : ℕ) → ((k : ℕ) → slice_index units k < 65536) → insn_in units ≡ Ok (i, n) → IsSome (encoding i) }
{}
