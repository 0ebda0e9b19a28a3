// Operations on two longs, and their comparison.

ghost use Rattle.std.specs.Prelude.{◌≡◌};
ghost use Rattle.pi_model.specs.Arithmetic.{long_result, long_comparison};
ghost use Rattle.pi_model.specs.declared.insn.BinOp.TheVariants.{Div, Rem};

use pi_model::insn::BinOp;

/// The result of an operation on two longs, each as its 64 bits; the distance of a shift is the second. `None` where a
/// division or a remainder is by 0.
pub fn long_op(op: BinOp, a: u64, b: u64) -> Option<u64>
    ensures { result ≡ long_result op a b }
{
    match op {
        BinOp::Add => Some(a.wrapping_add(b)),
        BinOp::Sub => Some(a.wrapping_sub(b)),
        BinOp::Rsub => Some(b.wrapping_sub(a)),
        BinOp::Mul => Some(a.wrapping_mul(b)),
        BinOp::Div => quotient(a, b),
        BinOp::Rem => remainder(a, b),
        BinOp::And => Some(a & b),
        BinOp::Or => Some(a | b),
        BinOp::Xor => Some(a ^ b),
        BinOp::Shl => Some(a << (b % 64)),
        BinOp::Shr => Some((a.cast_signed() >> (b % 64)).cast_unsigned()),
        BinOp::Ushr => Some(a >> (b % 64)),
    }
}

fn quotient(a: u64, b: u64) -> Option<u64>
    ensures { result ≡ long_result Div a b }
{
    if b == 0 {
        return None;
    }
    Some(
        a.cast_signed()
            .wrapping_div(b.cast_signed())
            .cast_unsigned(),
    )
}

fn remainder(a: u64, b: u64) -> Option<u64>
    ensures { result ≡ long_result Rem a b }
{
    if b == 0 {
        return None;
    }
    Some(
        a.cast_signed()
            .wrapping_rem(b.cast_signed())
            .cast_unsigned(),
    )
}

/// -1, 0 or 1 as the 32 bits of an int, where the first long is less than, equal to or greater than the second.
pub fn cmp_long(a: u64, b: u64) -> u32
    ensures { result ≡ long_comparison a b }
{
    let (a, b) = (a.cast_signed(), b.cast_signed());
    if a < b {
        u32::MAX
    } else if b < a {
        1
    } else {
        0
    }
}
