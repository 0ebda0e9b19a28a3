// The code that a code item of a file says, where string k of the file has the name 100 + k.
ghost use Rattle.std.specs.Prelude.{◌≡◌, ◌<◌, ◌≤◌, length, true, None, OnOk};
ghost use Rattle.pi_bytes.specs.Numbers.{most_bytes, word_end};
ghost use Rattle.pi_format.specs.Rules.CodeItems.{code_lies};
ghost use Rattle.pi_format.specs.Rules.Pieces.{index_holds, first_insn, code_walk};

use pi_bytes::numbers::MOST_BYTES;
use pi_codeitem::{broken_index, handlers, lies, units, walk};
use pi_dexcode::{Named, code};
use pi_dexraw::Raw;
use pi_model::numbers::NameNo;
use pi_rows::fault::Fault;
use pi_rows::told::Told;
use std::alloc::{AllocError, Global};

/// Adds the code at a place of a file that breaks no rule on tables.
pub(crate) fn add_code(told: &mut Told, alloc: Global, file: &[u8], at: usize) -> Result<(), Fault>
    requires small { length file.now ≤ most_bytes }
    requires place { at < word_end }
{
    let Ok(raw) = Raw::new(alloc, file) else {
        return Err(Fault::NoRow);
    };
    let numbers = numbers(alloc, raw.strings())?;
    if numbers.len() != raw.strings() as usize {
        return Err(Fault::NoRow);
    }
    add_said(told, alloc, &Named::new(&raw, numbers.as_slice()), at)
}

/// The names from 100 on.
fn numbers(alloc: Global, count: u32) -> Result<Vec<NameNo>, AllocError> {
    let mut numbers = Vec::new(alloc);
    for k in 0..count {
        numbers.push(NameNo(k.wrapping_add(100)))?;
    }
    Ok(numbers)
}

/// Adds the code of a code item as it prints, where its rules hold.
fn add_said(told: &mut Told, alloc: Global, names: &Named<'_>, at: usize) -> Result<(), Fault>
    requires { at < word_end }
{
    let file = names.raw().file();
    if !lies(file, at) {
        return Err(Fault::NoRow);
    }
    if handlers(alloc, file, at)?.is_none() {
        return Err(Fault::NoRow);
    }
    need_indices(alloc, file, at)?;
    told.debug(&code(alloc, names, at)?)
}

/// Refuses a code item of which the index of an instruction is out of range.
fn need_indices(alloc: Global, file: &[u8], at: usize) -> Result<(), Fault>
    requires header { 112 ≤ length file.now }
    requires lies { code_lies file.now at ≡ true }
    ensures { OnOk result (first_insn (λ _ i. index_holds file.now i.body) (code_walk file.now at).pieces ≡ None) }
{
    let units = units(alloc, file, at)?;
    if units.len() > MOST_BYTES {
        return Err(Fault::NoRow);
    }
    let walk = walk(alloc, units.as_slice())?;
    match broken_index(file, &walk) {
        None => Ok(()),
        Some(_) => Err(Fault::NoRow),
    }
}
