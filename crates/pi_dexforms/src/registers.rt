// The registers of an instruction that names several, as a file can give them.

ghost use Rattle.std.specs.Prelude.{◌≡◌, ◌↔◌, length, slice_index_or, IsTrue, All};
ghost use Rattle.std.specs.Option.{option_to_list};
ghost use Rattle.pi_insn.specs.Writing.{AreFew};
ghost use Rattle.pi_classtables.specs.Forms.{as_few};
ghost use Rattle.pi_model.specs.Registers.{registers_in_row};
ghost use Rattle.pi_dexforms.specs.Held.{short_run};

use pi_insn::RawRegs;
use pi_model::insn::Regs;

/// The register at a place, 0 where there is none.
fn register(regs: &Regs, place: usize) -> u16
    ensures { result ≡ slice_index_or regs.now place 0 }
{
    if place < regs.len() {
        regs.at(place)
    } else {
        0
    }
}

/// Registers one by one, where there are at most five.
pub fn few(regs: &Regs) -> Option<RawRegs>
    ensures value { option_to_list result ≡ as_few regs.now }
    ensures are_few { All AreFew (option_to_list result) }
{
    if regs.len() > 5 {
        return None;
    }
    Some(RawRegs::Few {
        n: regs.len() as u8,
        regs: [
            register(regs, 0),
            register(regs, 1),
            register(regs, 2),
            register(regs, 3),
            register(regs, 4),
        ],
    })
}

/// Whether registers follow each other from a first one on, modulo 2^16.
fn is_row(first: u16, regs: &Regs) -> bool
    ensures { IsTrue result ↔ (registers_in_row first (length regs.now) ≡ regs.now) }
{
    let mut next = first;
    for place in 0..regs.len() {
        if regs.at(place) != next {
            return false;
        }
        next = next.wrapping_add(1);
    }
    true
}

/// Registers in a row, where they follow each other and a byte can count them.
pub fn run(regs: &Regs) -> Option<RawRegs>
    ensures { option_to_list result ≡ short_run regs.now }
{
    let first = register(regs, 0);
    if regs.len() > u8::MAX as usize || !is_row(first, regs) {
        return None;
    }
    Some(RawRegs::Run {
        first,
        n: regs.len() as u8,
    })
}
