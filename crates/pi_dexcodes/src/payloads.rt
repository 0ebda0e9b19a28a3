// The payloads of a code, each at an even address.

ghost use Rattle.std.specs.Prelude.{◌≡◌, ◌==◌, ◌≤◌, ◌^◌, OnOk};
ghost use Rattle.std.specs.List.{list_any};
ghost use Rattle.pi_classtables.specs.Layout.{data_place, next_data};
ghost use Rattle.pi_dexcodes.specs.Front.{has_keys};
ghost use Rattle.pi_dexcodes.specs.Laying.{with_data};

use pi_dexdata::payload::is_scattered;
use pi_model::describe::Line;
use pi_model::listed::Units;
use std::alloc::AllocError;

/// The units of instructions, those of their payloads, and the address behind the payloads.
#[derive(Debug, Drop)]
pub(crate) struct Laid {
    pub units: Units,
    pub payloads: Units,
    pub next: u32,
}

/// The first even address from one on.
pub(crate) fn data_place(at: u32) -> u32
    requires { at ≤ 2 ^ 31 }
    ensures { result ≡ data_place at }
{
    at + at % 2
}

/// Whether an address is listed.
fn is_listed(at: u32, listed: &[u32]) -> bool
    ensures { result ≡ list_any (λ other. other == at) listed.now }
{
    listed.iter().any(|other| *other == at)
}

/// Whether the payload of a switch has its keys: where its address is listed, or where they do not follow each other.
pub(crate) fn has_keys(line: &Line, listed: &[u32]) -> bool
    ensures { result ≡ has_keys listed.now line.now }
{
    is_listed(line.at, listed) || is_scattered(&line.insn)
}

/// Puts a payload behind the others, with a nop before it where it would stand at an odd address.
pub(crate) fn put_data(laid: &mut Laid, units: Units) -> Result<(), AllocError>
    requires { next_data laid.old.next units ≤ 2 ^ 31 }
    ensures { OnOk result (laid.new ≡ with_data units laid.old) }
{
    if units.is_empty() {
        return Ok(());
    }
    if laid.next % 2 == 1 {
        laid.payloads.push(0)?;
    }
    laid.next = data_place(laid.next) + units.len() as u32;
    laid.payloads.append(units)?;
    Ok(())
}
