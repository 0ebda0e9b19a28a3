// A code as the tables of a file have it.

ghost use Rattle.std.specs.Prelude.{◌≡◌, ◌≤◌, ◌^◌, ℕ, List, length, map, Some, IfOk, IsTrue};
ghost use Rattle.std.specs.List.{All};
ghost use Rattle.pi_model.specs.declared.numbers.NameNo.{NameNo};
ghost use Rattle.pi_contents.specs.Named.{code_content};
ghost use Rattle.pi_contents.specs.Naming.{named_by_code};
ghost use Rattle.pi_classtables.specs.Layout.{data_fits};
ghost use Rattle.pi_classtables.specs.Numbers.{Pools, index_of};
ghost use Rattle.pi_classtables.specs.Spelled.{IsLaid};
ghost use Rattle.pi_classtables.specs.Whole.{body_of};
ghost use Rattle.pi_dexdata.specs.Numbers.{no_text};
ghost use Rattle.pi_dexcodes.specs.Front.{front_lines, end_of_lines, end_of_data};
ghost use Rattle.pi_dexcodes.specs.Laying.{laid_code};

use crate::catches::type_numbers;
use crate::front::front_of;
use crate::lines::lay_lines;
use pi_dexdata::ranges::handlers;
use pi_dextables::tables::Body;
use pi_model::describe::{Code, Line};
use pi_model::listed::Units;
use std::alloc::{AllocError, Global};

/// The units of a code, its payloads among them; `numbers` begin with those of what its instructions name.
fn units_of(
    alloc: Global,
    lines: &[Line],
    listed: &[u32],
    numbers: &[u32],
) -> Result<Option<Units>, AllocError>
    requires fit { All (λ l. IsTrue (data_fits l.insn)) lines.now }
    requires near { end_of_data listed.now (end_of_lines 0 (front_lines 0 lines.now)) (front_lines 0 lines.now) ≤ 2 ^ 31 }
    ensures { IfOk result (λ units. units ≡ laid_code listed.now numbers.now lines.now) }
{
    let front = front_of(lines);
    let before = &lines[..front.count];
    lay_lines(alloc, front.end as u32, before, listed, numbers)
}

/// A code as the tables of a file have it, by the numbers of what its instructions and its handlers name, in order; `sparse` are
/// the addresses of switches whose payload is sparse, whatever their keys. None where an instruction has no form of its length
/// that these numbers fit.
pub fn body(
    alloc: Global,
    code: &Code,
    sparse: &[u32],
    numbers: &[u32],
) -> Result<Option<Body>, AllocError>
    requires { IsLaid sparse.now (code_content no_text code.now) }
    ensures { IfOk result (λ b. (p : Pools) (text : NameNo → List ℕ) → length p.types ≤ 65535
        → numbers.now ≡ map (index_of p) (named_by_code (Some (code_content text code.now)))
        → b ≡ body_of p sparse.now (code_content text code.now)) }
{
    let lines = code.insns.as_slice();
    let Some(units) = units_of(alloc, lines, sparse, numbers)? else {
        return Ok(None);
    };
    let types = type_numbers(alloc, lines.len(), numbers)?;
    let handlers = handlers(alloc, code.tries.as_slice(), types.as_slice())?;
    Ok(Some(Body {
        registers: code.regs,
        ins: code.ins,
        outs: code.outs,
        units,
        ranges: handlers.ranges,
        lists: handlers.lists,
    }))
}
