// Operations on one operand.

ghost use Rattle.std.specs.Prelude.{◌≡◌};
ghost use Rattle.std.specs.Int.{w8, w16, w32, cast_signed, cast_unsigned};
ghost use Rattle.pi_model.specs.Arithmetic.{unary_result};

use pi_model::insn::UnOp;

/// The result of an operation on one operand. An int is the low 32 bits, in what is given and in what is answered.
pub fn un_op(op: UnOp, a: u64) -> u64
    ensures { result ≡ unary_result op a }
{
    let int = (a % (1 << 32)) as u32;
    match op {
        UnOp::NegInt => int.wrapping_neg() as u64,
        UnOp::NotInt => !int as u64,
        UnOp::NegLong => a.wrapping_neg(),
        UnOp::NotLong => !a,
        UnOp::IntToLong => (int.cast_signed() as i64).cast_unsigned(),
        UnOp::LongToInt => int as u64,
        UnOp::IntToByte => extended_byte((a % 256) as u8) as u64,
        UnOp::IntToChar => a % (1 << 16),
        UnOp::IntToShort => extended_short((a % (1 << 16)) as u16) as u64,
    }
}

fn extended_byte(low: u8) -> u32
    ensures { result ≡ cast_unsigned w32 (cast_signed w8 low) }
{
    (low.cast_signed() as i32).cast_unsigned()
}

fn extended_short(low: u16) -> u32
    ensures { result ≡ cast_unsigned w32 (cast_signed w16 low) }
{
    (low.cast_signed() as i32).cast_unsigned()
}
