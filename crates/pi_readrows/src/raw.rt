// The tables of a file.
ghost use Rattle.std.specs.Prelude.{◌≤◌, length};
ghost use Rattle.pi_bytes.specs.Numbers.{most_bytes};

use pi_dexraw::Raw;
use pi_rows::fault::Fault;
use pi_rows::told::Told;
use std::alloc::Global;

/// Adds all that tables lend, or the rule that they break.
pub(crate) fn add_tables(told: &mut Told, alloc: Global, file: &[u8]) -> Result<(), Fault>
    requires { length file.now ≤ most_bytes }
{
    let raw = match Raw::new(alloc, file) {
        Ok(raw) => raw,
        Err(fault) => return told.value(&fault),
    };
    add_sizes(told, &raw)?;
    told.line()?;
    told.digest(raw.file())?;
    add_texts(told, alloc, &raw)?;
    add_types(told, &raw)?;
    add_protos(told, &raw)?;
    add_fields(told, &raw)?;
    add_methods(told, &raw)?;
    add_class_defs(told, &raw)
}

/// Adds the sizes of tables, and how many bytes and units all strings have.
pub(crate) fn add_table_sizes(told: &mut Told, alloc: Global, file: &[u8]) -> Result<(), Fault>
    requires { length file.now ≤ most_bytes }
{
    let raw = match Raw::new(alloc, file) {
        Ok(raw) => raw,
        Err(fault) => return told.value(&fault),
    };
    let mut bytes: usize = 0;
    let mut units: usize = 0;
    for i in 0..raw.strings() {
        bytes = bytes.wrapping_add(raw.string(i).len());
        units = units.wrapping_add(raw.units(alloc, i)?.as_slice().len());
    }
    add_sizes(told, &raw)?;
    told.words(", ")?;
    told.value(&bytes)?;
    told.words(" bytes and ")?;
    told.value(&units)?;
    told.words(" units")
}

fn add_sizes(told: &mut Told, raw: &Raw<'_>) -> Result<(), Fault> {
    told.counts(&[
        ("strings", raw.strings()),
        ("types", raw.types()),
        ("prototypes", raw.protos()),
        ("fields", raw.fields()),
        ("methods", raw.methods()),
        ("classes", raw.class_defs()),
    ])
}

/// Adds the strings, each by its number, its bytes and its units.
fn add_texts(told: &mut Told, alloc: Global, raw: &Raw<'_>) -> Result<(), Fault> {
    for i in 0..raw.strings() {
        told.line_of("string", &i)?;
        told.words(" ")?;
        told.bytes(raw.string(i))?;
        told.words(" of units ")?;
        told.units(raw.units(alloc, i)?.as_slice())?;
    }
    Ok(())
}

/// Adds an entry by its table and its number.
fn add_entry(told: &mut Told, table: &str, i: u32, bytes: &[u8]) -> Result<(), Fault> {
    told.line_of(table, &i)?;
    told.words(" ")?;
    told.digits(bytes)
}

fn add_types(told: &mut Told, raw: &Raw<'_>) -> Result<(), Fault> {
    for i in 0..raw.types() {
        add_entry(told, "type", i, raw.type_at(i))?;
    }
    Ok(())
}

fn add_protos(told: &mut Told, raw: &Raw<'_>) -> Result<(), Fault> {
    for i in 0..raw.protos() {
        add_entry(told, "prototype", i, raw.proto(i))?;
    }
    Ok(())
}

fn add_fields(told: &mut Told, raw: &Raw<'_>) -> Result<(), Fault> {
    for i in 0..raw.fields() {
        add_entry(told, "field", i, raw.field(i))?;
    }
    Ok(())
}

fn add_methods(told: &mut Told, raw: &Raw<'_>) -> Result<(), Fault> {
    for i in 0..raw.methods() {
        add_entry(told, "method", i, raw.method(i))?;
    }
    Ok(())
}

fn add_class_defs(told: &mut Told, raw: &Raw<'_>) -> Result<(), Fault> {
    for i in 0..raw.class_defs() {
        add_entry(told, "class", i, raw.class_def(i))?;
    }
    Ok(())
}
