// The units of the instructions of a code, with their payloads behind them.

ghost use Rattle.std.specs.Prelude.{◌≡◌, ◌≤◌, ◌^◌, [], IfOk, IsTrue};
ghost use Rattle.std.specs.List.{All};
ghost use Rattle.pi_classtables.specs.Layout.{data_fits, next_data};
ghost use Rattle.pi_dexcodes.specs.Front.{data_for, end_of_data};
ghost use Rattle.pi_dexcodes.specs.Laying.{first_number, numbers_behind, with_line, laid_lines};

use crate::payloads::{Laid, data_place, has_keys, put_data};
use pi_dexdata::payload::payload;
use pi_dexforms::{Place, form};
use pi_model::describe::Line;
use pi_model::listed::Units;
use std::alloc::{AllocError, Global};

/// The first of numbers, 0 where there is none.
fn first_number(numbers: &[u32]) -> u32
    ensures { result ≡ first_number numbers.now }
{
    match numbers {
        [number, ..] => *number,
        [] => 0,
    }
}

/// The numbers behind the first.
fn numbers_behind(numbers: &[u32]) -> &[u32]
    ensures { result.now ≡ numbers_behind numbers.now }
{
    match numbers {
        [_, behind @ ..] => behind,
        [] => numbers,
    }
}

/// Adds an instruction and its payload; `number` is that of what it names. None where it has no form.
fn add_line(
    alloc: Global,
    laid: Laid,
    line: &Line,
    number: u32,
    listed: &[u32],
) -> Result<Option<Laid>, AllocError>
    requires fits { IsTrue (data_fits line.now.insn) }
    requires near { next_data laid.next (data_for listed.now line.now) ≤ 2 ^ 31 }
    ensures { IfOk result (λ more. more ≡ with_line listed.now number line.now laid) }
{
    let mut laid = laid;
    let sparse = has_keys(line, listed);
    let place = Place {
        units: line.units,
        index: number,
        at: line.at,
        payload: data_place(laid.next),
        sparse,
    };
    let Some(units) = form(alloc, &line.insn, place)? else {
        return Ok(None);
    };
    laid.units.append(units)?;
    put_data(&mut laid, payload(alloc, &line.insn, line.at, sparse)?)?;
    Ok(Some(laid))
}

/// The units of instructions and of their payloads, which begin at an address; `numbers` are those of what the instructions name.
pub(crate) fn lay_lines(
    alloc: Global,
    start: u32,
    lines: &[Line],
    listed: &[u32],
    numbers: &[u32],
) -> Result<Option<Units>, AllocError>
    requires fit { All (λ l. IsTrue (data_fits l.insn)) lines.now }
    requires near { end_of_data listed.now start lines.now ≤ 2 ^ 31 }
    ensures { IfOk result (λ units. units ≡ laid_lines listed.now numbers.now (record { units = []; payloads = []; next = start }) lines.now) }
{
    let mut laid = Laid {
        units: Units::new(alloc),
        payloads: Units::new(alloc),
        next: start,
    };
    let mut left = numbers;
    for line in lines {
        let Some(more) = add_line(alloc, laid, line, first_number(left), listed)? else {
            return Ok(None);
        };
        laid = more;
        left = numbers_behind(left);
    }
    let mut units = laid.units;
    units.append(laid.payloads)?;
    Ok(Some(units))
}
