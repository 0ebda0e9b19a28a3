// The instructions of a small file, a row each. docs/machine.md states what each does.

ghost use Rattle.std.specs.Prelude.{◌≡◌, ◌≤◌, ◌<◌, ◌+◌, length, take, IfOk, OnOk, OnErr, IsTrue, is_err, IsSome};
ghost use Rattle.pi_base.specs.Outside.{Puts};
ghost use Rattle.pi_duty.specs.Small.{insn_fits};
ghost use Rattle.pi_machine.specs.Printed.{printed_int};
ghost use Rattle.pi_model.specs.Search.{own_field};
ghost use Rattle.pi_top.specs.Row.{effect_of, place_of};

use itoa::Buffer;
use pi_base::outside::{Sink, SinkError};
use pi_base::put::put_all;
use pi_model::describe::ClassDesc;
use pi_model::insn::{FieldRef, Insn};

/// The place of a field of the class.
fn place_in(class: &ClassDesc, field: &FieldRef) -> usize
    requires { IsSome (own_field class.now field.now) }
    ensures place { result ≡ place_of class.now field.now }
    ensures within { result < length class.now.fields }
{
    match class.own_field(field) {
        Some(place) => place,
        None => unreachable!(),
    }
}

/// A word as a signed decimal number and a newline, in the first bytes of a buffer; and their number.
fn spell(word: u32, piece: &mut [u8; 12]) -> usize
    ensures within { result ≤ 12 }
    ensures bytes { take result piece.new ≡ printed_int word }
{
    let mut buffer = Buffer::new();
    let digits = buffer.format(word.cast_signed()).as_bytes();
    let size = digits.len();
    piece[..size].copy_from_slice(digits);
    piece[size] = b'\n';
    size + 1
}

/// Prints a word as a signed decimal number and a newline, in one piece.
fn print<O: Sink>(word: u32, out: &mut O) -> Result<(), SinkError>
    ensures puts { Puts (printed_int word) result (O.view out.old) (O.view out.new) }
{
    let mut piece = [0u8; 12];
    let size = spell(word, &mut piece);
    let (text, _) = piece.split_at(size);
    put_all(out, text)
}

/// Does an instruction of a code of the class, and says whether it returned.
pub fn perform<O: Sink>(
    class: &ClassDesc,
    insn: &Insn,
    registers: &mut [u32],
    statics: &mut [u32],
    out: &mut O,
) -> Result<bool, SinkError>
    requires fits { IsTrue (insn_fits class.now (length registers.old) insn.now) }
    requires statics { length statics.old ≡ length class.now.fields }
    ensures registers { registers.new ≡ (effect_of class.now insn.now registers.old statics.old).registers }
    ensures statics { statics.new ≡ (effect_of class.now insn.now registers.old statics.old).statics }
    ensures returns { IfOk result (λ r. r ≡ (effect_of class.now insn.now registers.old statics.old).returns) }
    ensures puts { Puts (effect_of class.now insn.now registers.old statics.old).printed result (O.view out.old) (O.view out.new) }
{
    match insn {
        Insn::Const { a, v } => {
            registers[*a as usize] = *v;
            Ok(false)
        }
        Insn::Sget { kind: _, a, f } => {
            registers[*a as usize] = statics[place_in(class, f)];
            Ok(false)
        }
        Insn::Sput { kind: _, a, f } => {
            statics[place_in(class, f)] = registers[*a as usize];
            Ok(false)
        }
        Insn::Invoke { how: _, m: _, regs } => {
            print(registers[regs.at(0) as usize], out)?;
            Ok(false)
        }
        _ => Ok(true),
    }
}
