// The class data and the static values of a file, class by class, and flags.
ghost use Rattle.std.specs.Prelude.{◌≡◌, ◌≤◌, length};
ghost use Rattle.pi_bytes.specs.Numbers.{most_bytes};
ghost use Rattle.pi_format.specs.Tables.{count_at, class_defs};
ghost use Rattle.pi_format.specs.Rules.ClassData.{rows_of};
ghost use Rattle.pi_format.specs.Rules.Lowest.{tabulation};

use pi_classdata::{
    AccessFlags, ClassRows, MemberRow, RowTable, class_rows, class_values, read_rows, values_rule,
};
use pi_dexraw::Raw;
use pi_rows::fault::Fault;
use pi_rows::told::Told;
use std::alloc::Global;

/// Adds the names of the flags that a number sets.
pub(crate) fn add_flags(told: &mut Told, number: u32) -> Result<(), Fault> {
    let flags = AccessFlags(number);
    told.words("flags")?;
    for flag in [
        (" public", flags.is_public()),
        (" private", flags.is_private()),
        (" static", flags.is_static()),
        (" native", flags.is_native()),
        (" interface", flags.is_interface()),
        (" abstract", flags.is_abstract()),
        (" constructor", flags.is_constructor()),
    ]
    .iter()
    {
        let (name, is_set) = *flag;
        told.words(if is_set { name } else { "" })?;
    }
    Ok(())
}

/// Adds what a file says of members.
pub(crate) fn add_members(told: &mut Told, alloc: Global, file: &[u8]) -> Result<(), Fault>
    requires { length file.now ≤ most_bytes }
{
    let raw = match Raw::new(alloc, file) {
        Ok(raw) => raw,
        Err(fault) => return told.value(&fault),
    };
    add_classes(told, alloc, &raw)?;
    let (broken, table) = read_rows(alloc, &raw)?;
    told.line_of("members broken at", &broken)?;
    let broken = values_rule(alloc, &raw, &table)?;
    told.line_of("values broken at", &broken)?;
    add_values(told, alloc, &raw, &table)
}

/// Adds the members of each class.
fn add_classes(told: &mut Told, alloc: Global, raw: &Raw<'_>) -> Result<(), Fault> {
    for i in 0..raw.class_defs() {
        told.line_of("class", &i)?;
        match class_rows(alloc, raw, i)? {
            Some(rows) => add_class(told, &rows)?,
            None => told.words(": no members")?,
        }
    }
    Ok(())
}

/// Adds the members of a class, list by list.
fn add_class(told: &mut Told, rows: &ClassRows) -> Result<(), Fault> {
    add_rows(told, "static", rows.statics.as_slice())?;
    add_rows(told, "instance", rows.instances.as_slice())?;
    add_rows(told, "direct", rows.directs.as_slice())?;
    add_rows(told, "virtual", rows.virtuals.as_slice())
}

fn add_rows(told: &mut Told, list: &str, rows: &[MemberRow]) -> Result<(), Fault> {
    for row in rows {
        told.line_of(list, row)?;
    }
    Ok(())
}

/// Adds the values of each class, by the table of its members.
fn add_values(told: &mut Told, alloc: Global, raw: &Raw<'_>, table: &RowTable) -> Result<(), Fault>
    requires { table.now ≡ tabulation (rows_of raw.now) 0 (count_at raw.now class_defs) }
{
    for i in 0..raw.class_defs() {
        if table.len() <= i as usize {
            return Ok(());
        }
        let values = class_values(alloc, raw, table.get(i), i)?;
        told.line_of("values of class", &i)?;
        told.words(": ")?;
        told.debug(&values)?;
    }
    Ok(())
}
