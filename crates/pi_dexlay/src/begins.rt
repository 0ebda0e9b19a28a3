// Where the tables of a file begin, and the map behind them.

ghost use Rattle.std.specs.Prelude.{◌≡◌, ◌≤◌, ◌<◌, ◌+◌, ◌*◌, IfSome, IfNone};
ghost use Rattle.pi_bytes.specs.Numbers.{most_bytes};
ghost use Rattle.pi_dextables.specs.Image.{file_end};
ghost use Rattle.pi_dexlay.specs.Causes.{AreBegins};

use pi_bytes::numbers::MOST_BYTES;
use pi_dextables::tables::Tables;

/// The end of a part that begins at an offset; None where it is behind the most bytes that a file may have.
pub(crate) fn end_of(begin: usize, size: usize) -> Option<usize>
    requires { begin ≤ most_bytes }
    ensures end { IfSome result (λ end. end ≡ begin + size) }
    ensures within { IfSome result (λ end. end ≤ most_bytes) }
    ensures long { IfNone result (most_bytes < begin + size) }
{
    if size > MOST_BYTES - begin {
        return None;
    }
    Some(begin + size)
}

/// The end of a table of entries of a width; None likewise.
fn table_end(begin: usize, count: usize, width: usize) -> Option<usize>
    requires begin { begin ≤ most_bytes }
    requires some { 0 < width }
    requires narrow { width ≤ 32 }
    ensures end { IfSome result (λ end. end ≡ begin + width * count) }
    ensures within { IfSome result (λ end. end ≤ most_bytes) }
    ensures long { IfNone result (most_bytes < begin + width * count) }
{
    if count > MOST_BYTES {
        return None;
    }
    let end = end_of(begin, width * count)?;
    Some(end)
}

/// Where the tables begin, and the map.
#[derive(Clone, Copy, Debug)]
pub(crate) struct Begins {
    pub types: usize,
    pub protos: usize,
    pub fields: usize,
    pub methods: usize,
    pub classes: usize,
    pub map: usize,
}

/// Where the tables begin; None where these alone make the file too long.
pub(crate) fn begins_of(tables: &Tables) -> Option<Begins>
    ensures begins { IfSome result (AreBegins tables.now) }
    ensures long { IfNone result (most_bytes < file_end tables.now) }
{
    let types = table_end(112, tables.strings.len(), 4)?;
    let protos = table_end(types, tables.types.len(), 4)?;
    let fields = table_end(protos, tables.protos.len(), 12)?;
    let methods = table_end(fields, tables.fields.len(), 8)?;
    let classes = table_end(methods, tables.methods.len(), 8)?;
    let map = table_end(classes, tables.classes.len(), 32)?;
    Some(Begins {
        types,
        protos,
        fields,
        methods,
        classes,
        map,
    })
}
