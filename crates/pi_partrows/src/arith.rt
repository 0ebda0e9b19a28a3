// Arithmetic of whole numbers. A number is written as a signed one, and stands for its bits. Each row stands alone:
//
//   int OP A B            an operation on two ints
//   long OP A B           an operation on two longs
//   one OP A              an operation on one operand, of 64 bits as its answer
//   compare A B           the comparison of two longs
//
// A row is told by its result.
use pi_arith::{cmp_long, int_op, long_op, un_op};
use pi_model::insn::{BinOp, UnOp};
use pi_rows::fault::Fault;
use pi_rows::follow::Subject;
use pi_rows::told::Told;
use pi_rows::words::halves;

/// Nothing is kept from row to row.
#[derive(Drop)]
pub struct Arithmetic;

impl Subject for Arithmetic {
    fn follow(
        &mut self,
        _rt: &HostRuntime,
        verb: &str,
        rest: &str,
        told: &mut Told,
    ) -> Result<(), Fault> {
        match outcome(verb, rest)? {
            Some(number) => told.value(&number),
            None => told.words("none"),
        }
    }
}

/// The result of a row's operation; none for a division by 0.
fn outcome(verb: &str, rest: &str) -> Result<Option<i64>, Fault> {
    let (first, behind) = halves(rest)?;
    match verb {
        "int" => on_ints(binary(first)?, behind),
        "long" => on_longs(binary(first)?, behind),
        "one" => Ok(Some(un_op(unary(first)?, long(behind)?).cast_signed())),
        "compare" => Ok(Some(i64::from(cmp_long(long(first)?, long(behind)?).cast_signed()))),
        _ => Err(Fault::NoRow),
    }
}

fn on_ints(op: BinOp, numbers: &str) -> Result<Option<i64>, Fault> {
    let (a, b) = halves(numbers)?;
    let (a, b) = (a.parse::<i32>()?, b.parse::<i32>()?);
    match int_op(op, a.cast_unsigned(), b.cast_unsigned()) {
        Some(bits) => Ok(Some(i64::from(bits.cast_signed()))),
        None => Ok(None),
    }
}

fn on_longs(op: BinOp, numbers: &str) -> Result<Option<i64>, Fault> {
    let (a, b) = halves(numbers)?;
    match long_op(op, long(a)?, long(b)?) {
        Some(bits) => Ok(Some(bits.cast_signed())),
        None => Ok(None),
    }
}

/// The bits of a long.
fn long(number: &str) -> Result<u64, Fault> {
    Ok(number.parse::<i64>()?.cast_unsigned())
}

fn binary(name: &str) -> Result<BinOp, Fault> {
    match name {
        "add" => Ok(BinOp::Add),
        "sub" => Ok(BinOp::Sub),
        "rsub" => Ok(BinOp::Rsub),
        "mul" => Ok(BinOp::Mul),
        "div" => Ok(BinOp::Div),
        "rem" => Ok(BinOp::Rem),
        "and" => Ok(BinOp::And),
        "or" => Ok(BinOp::Or),
        "xor" => Ok(BinOp::Xor),
        "shl" => Ok(BinOp::Shl),
        "shr" => Ok(BinOp::Shr),
        "ushr" => Ok(BinOp::Ushr),
        _ => Err(Fault::NoRow),
    }
}

fn unary(name: &str) -> Result<UnOp, Fault> {
    match name {
        "neg-int" => Ok(UnOp::NegInt),
        "not-int" => Ok(UnOp::NotInt),
        "neg-long" => Ok(UnOp::NegLong),
        "not-long" => Ok(UnOp::NotLong),
        "int-to-long" => Ok(UnOp::IntToLong),
        "long-to-int" => Ok(UnOp::LongToInt),
        "int-to-byte" => Ok(UnOp::IntToByte),
        "int-to-char" => Ok(UnOp::IntToChar),
        "int-to-short" => Ok(UnOp::IntToShort),
        _ => Err(Fault::NoRow),
    }
}
