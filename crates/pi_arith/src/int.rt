// Operations on two ints.

ghost use Rattle.std.specs.Prelude.{◌≡◌};
ghost use Rattle.pi_model.specs.Arithmetic.{int_result};
ghost use Rattle.pi_model.specs.declared.insn.BinOp.TheVariants.{Div, Rem};

use pi_model::insn::BinOp;

/// The result of an operation on two ints, each as its 32 bits; `None` where a division or a remainder is by 0.
pub fn int_op(op: BinOp, a: u32, b: u32) -> Option<u32>
    ensures { result ≡ int_result op a b }
{
    match op {
        BinOp::Add => Some(a.wrapping_add(b)),
        BinOp::Sub => Some(a.wrapping_sub(b)),
        BinOp::Rsub => Some(b.wrapping_sub(a)),
        BinOp::Mul => Some(a.wrapping_mul(b)),
        BinOp::Div => quotient(a, b),
        BinOp::Rem => remainder(a, b),
        BinOp::And => Some(a & b),
        BinOp::Or => Some(a | b),
        BinOp::Xor => Some(a ^ b),
        BinOp::Shl => Some(a << (b % 32)),
        BinOp::Shr => Some((a.cast_signed() >> (b % 32)).cast_unsigned()),
        BinOp::Ushr => Some(a >> (b % 32)),
    }
}

fn quotient(a: u32, b: u32) -> Option<u32>
    ensures { result ≡ int_result Div a b }
{
    if b == 0 {
        return None;
    }
    Some(
        a.cast_signed()
            .wrapping_div(b.cast_signed())
            .cast_unsigned(),
    )
}

fn remainder(a: u32, b: u32) -> Option<u32>
    ensures { result ≡ int_result Rem a b }
{
    if b == 0 {
        return None;
    }
    Some(
        a.cast_signed()
            .wrapping_rem(b.cast_signed())
            .cast_unsigned(),
    )
}
