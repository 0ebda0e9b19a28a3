// The code items of the methods of a file, each once: several methods may have the same.

ghost use Rattle.std.specs.Prelude.{◌≡◌, ◌++◌, IfOk, OnOk};
ghost use Rattle.pi_format.specs.Tables.{count_at, class_defs};
ghost use Rattle.pi_format.specs.Rules.Lowest.{tabulation};
ghost use Rattle.pi_format.specs.Rules.ClassData.{rows_of, methods_in};
ghost use Rattle.pi_dex.specs.Shared.{offsets_in, code_offsets, AreCodes};

use crate::members::members;
use pi_classdata::{ClassRows, MemberRow, RowTable};
use pi_dexraw::Raw;
use std::alloc::{AllocError, Global};

/// Adds the offsets of the code items of methods.
#[tactic(auto, using(crate::proofs::Shared::offset_goes, crate::proofs::Shared::no_offset_goes, crate::proofs::Shared::offsets_end))]
fn add_offsets(offsets: &mut Vec<u32>, rows: &[MemberRow]) -> Result<(), AllocError>
    ensures { OnOk result (offsets.new.items ≡ offsets.old.items ++ offsets_in rows.now) }
{
    for i in 0..rows.len() {
        let row = &rows[i];
        if row.code != 0 {
            offsets.push(row.code)?;
        }
    }
    Ok(())
}

/// Adds those of the methods of a class.
fn add_class_offsets(offsets: &mut Vec<u32>, rows: &ClassRows) -> Result<(), AllocError>
    ensures { OnOk result (offsets.new.items ≡ offsets.old.items ++ offsets_in (methods_in rows.now)) }
{
    add_offsets(offsets, rows.directs.as_slice())?;
    add_offsets(offsets, rows.virtuals.as_slice())?;
    Ok(())
}

/// The offsets of the code items of all methods.
#[tactic(auto, using(crate::proofs::Shared::classes_go, crate::proofs::Shared::classes_end))]
fn all_offsets(alloc: Global, raw: &Raw<'_>, table: &RowTable) -> Result<Vec<u32>, AllocError>
    requires { table.now ≡ tabulation (rows_of raw.now) 0 (count_at raw.now class_defs) }
    ensures { IfOk result (λ list. list.items ≡ code_offsets raw.now) }
{
    let mut offsets = Vec::new(alloc);
    for i in 0..raw.class_defs() {
        add_class_offsets(&mut offsets, members(raw, table, i))?;
    }
    Ok(offsets)
}

/// The offsets of the code items of all methods, each once, the lowest first.
pub(crate) fn code_offsets(
    alloc: Global,
    raw: &Raw<'_>,
    table: &RowTable,
) -> Result<Vec<u32>, AllocError>
    requires { table.now ≡ tabulation (rows_of raw.now) 0 (count_at raw.now class_defs) }
    ensures { IfOk result (λ list. AreCodes raw.now list.items) }
{
    let mut offsets = all_offsets(alloc, raw, table)?;
    offsets.sort_unstable();
    offsets.dedup();
    Ok(offsets)
}
