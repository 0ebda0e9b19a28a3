// Numbers the texts of a file's strings: a text that is a name already keeps its number, a new one takes the next.

ghost use Rattle.std.specs.Prelude.{◌≡◌, ◌+◌, ◌^◌, ◌<◌, ◌≤◌, length, IfOk, OnOk};
ghost use Rattle.pi_format.specs.Tables.{count_at, string_ids};
ghost use Rattle.pi_format.specs.Rules.Strings.{string_units};
ghost use Rattle.pi_format.specs.Says.Names.{texts_of, new_names, name_numbers};
ghost use Rattle.pi_dexcode.specs.Noting.{noted_names, noted_numbers};

use pi_dexraw::Raw;
use pi_model::listed::{Names, Texts, Units};
use pi_model::numbers::NameNo;
use pi_model::prog::Prog;
use std::alloc::{AllocError, Global};

/// The names that a file brings, in the order of its strings, and for each string the number of its name.
#[derive(Drop)]
pub struct Numbered {
    pub new: Texts,
    pub numbers: Names,
}

/// One text more, behind the names of the program and the new ones so far.
#[tactic(auto, using(crate::proofs::Noting::noted_old, crate::proofs::Noting::noted_new))]
fn note(prog: &Prog, new: &mut Texts, numbers: &mut Names, text: Units) -> Result<(), AllocError>
    requires { length prog.now.names + length new.old < 2 ^ 32 }
    ensures names { OnOk result (new.new ≡ noted_names prog.now.names new.old text) }
    ensures numbers { OnOk result (numbers.new ≡ noted_numbers prog.now.names new.old numbers.old text) }
    ensures grows { OnOk result (length new.new ≤ length new.old + 1) }
{
    match prog.find_name(text.as_slice()) {
        Some(number) => numbers.push(number),
        None => {
            numbers.push(NameNo(prog.names() + new.len() as u32))?;
            new.push(text)
        }
    }
}

/// Numbers all strings of a file behind the names of a program.
pub fn number(alloc: Global, prog: &Prog, raw: &Raw<'_>) -> Result<Numbered, AllocError>
    requires { length prog.now.names + count_at raw.now string_ids < 2 ^ 32 }
    ensures new { IfOk result (λ known. known.new ≡ new_names prog.now.names (texts_of raw.now)) }
    ensures numbers { IfOk result (λ known. known.numbers ≡ name_numbers prog.now.names raw.now) }
{
    let mut new = Texts::new(alloc);
    let mut numbers = Names::new(alloc);
    for i in 0..raw.strings() {
        let text = raw.units(alloc, i)?;
        note(prog, &mut new, &mut numbers, text)?;
    }
    Ok(Numbered { new, numbers })
}
