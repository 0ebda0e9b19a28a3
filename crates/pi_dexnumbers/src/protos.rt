// Prototypes in rising order.

ghost use Rattle.std.specs.Prelude.{◌≡◌, ◌<◌, ◌^◌, ◌++◌, All, map, length, IfOk, OnOk};
ghost use Rattle.pi_classtables.specs.Sorted.{sorted, text_order};
ghost use Rattle.pi_dexnumbers.specs.Rows.{row_places, proto_row, proto_line, proto_lines, proto_of_line, ProtoLineFits};

use crate::lookup::{number_at, put_numbers};
use pi_dexpools::gathered::ProtoParts;
use pi_dexranks::rank_rows;
use pi_dextables::tables::Proto;
use pi_model::listed::{Listed, Units};
use std::alloc::{AllocError, Global};

/// Prototypes in rising order, and the place there of each as they stood.
#[derive(Debug, Drop)]
pub(crate) struct RankedProtos {
    pub(crate) entries: Listed<Proto>,
    pub(crate) ranks: Listed<u32>,
}

/// Adds the numbers of the result and of the parameters.
fn put_row(row: &mut Listed<u32>, types: &[u32], proto: &ProtoParts) -> Result<(), AllocError>
    ensures { OnOk result (row.new ≡ row.old ++ proto_row types.now proto.now) }
{
    row.push(number_at(types, proto.ret))?;
    put_numbers(row, types, proto.params.as_slice())
}

/// The row of a prototype.
fn row_of(alloc: Global, types: &[u32], proto: &ProtoParts) -> Result<Listed<u32>, AllocError>
    ensures { IfOk result (λ row. row ≡ proto_row types.now proto.now) }
{
    let mut row = Listed::new(alloc);
    put_row(&mut row, types, proto)?;
    Ok(row)
}

/// A row for each prototype.
fn rows_of(
    alloc: Global,
    protos: &[ProtoParts],
    types: &[u32],
) -> Result<Listed<Listed<u32>>, AllocError>
    ensures { IfOk result (λ rows. rows ≡ map (proto_row types.now) protos.now) }
{
    let mut rows = Listed::new(alloc);
    for proto in protos {
        rows.push(row_of(alloc, types, proto)?)?;
    }
    Ok(rows)
}

/// The row of a prototype behind its number and that of its short form.
fn line_of(
    alloc: Global,
    texts: &[u32],
    types: &[u32],
    number: u32,
    proto: &ProtoParts,
) -> Result<Listed<u32>, AllocError>
    ensures { IfOk result (λ line. line ≡ proto_line texts.now types.now number proto.now) }
{
    let mut line = Listed::from_slice(alloc, &[number, number_at(texts, proto.short)])?;
    put_row(&mut line, types, proto)?;
    Ok(line)
}

/// The rows of prototypes behind their numbers.
fn lines_of(
    alloc: Global,
    protos: &[ProtoParts],
    ranks: &[u32],
    texts: &[u32],
    types: &[u32],
) -> Result<Listed<Listed<u32>>, AllocError>
    ensures { IfOk result (λ lines. lines ≡ proto_lines texts.now types.now ranks.now protos.now) }
{
    let mut lines = Listed::new(alloc);
    for (number, proto) in ranks.iter().zip(protos) {
        lines.push(line_of(alloc, texts, types, *number, proto)?)?;
    }
    Ok(lines)
}

/// Small numbers in 16 bits.
fn halves(alloc: Global, numbers: &[u32]) -> Result<Units, AllocError>
    requires { All (λ n. n < 2 ^ 16) numbers.now }
    ensures { IfOk result (λ units. units ≡ numbers.now) }
{
    let mut units = Listed::new(alloc);
    for number in numbers {
        units.push(*number as u16)?;
    }
    Ok(units)
}

/// The entry of a line.
fn proto_of(alloc: Global, line: &[u32]) -> Result<Proto, AllocError>
    requires { ProtoLineFits line.now }
    ensures { IfOk result (λ entry. entry ≡ proto_of_line line.now) }
{
    let (head, params) = line.split_at(3);
    Ok(Proto {
        short: head[1],
        ret: head[2] as u16,
        params: halves(alloc, params)?,
    })
}

/// The entry of each line.
fn proto_entries(alloc: Global, lines: &[Listed<u32>]) -> Result<Listed<Proto>, AllocError>
    requires { All ProtoLineFits lines.now }
    ensures { IfOk result (λ entries. entries ≡ map proto_of_line lines.now) }
{
    let mut entries = Listed::new(alloc);
    for line in lines {
        entries.push(proto_of(alloc, line.as_slice())?)?;
    }
    Ok(entries)
}

/// Prototypes in rising order; `texts` and `types` are the numbers of what they are made of. A second sort, by their numbers,
/// brings the short forms along.
pub(crate) fn rank_protos(
    alloc: Global,
    protos: &[ProtoParts],
    texts: &[u32],
    types: &[u32],
) -> Result<RankedProtos, AllocError>
    requires { All (λ n. n < 2 ^ 16) types.now }
    ensures entries { IfOk result (λ r. let places = row_places (map (proto_row types.now) protos.now) in
        r.entries ≡ map proto_of_line (sorted text_order (proto_lines texts.now types.now places protos.now))) }
    ensures ranks { IfOk result (λ r. r.ranks ≡ row_places (map (proto_row types.now) protos.now)) }
{
    let ranked = rank_rows(alloc, rows_of(alloc, protos, types)?)?;
    let lines = lines_of(alloc, protos, ranked.ranks.as_slice(), texts, types)?;
    let numbered = rank_rows(alloc, lines)?;
    let entries = proto_entries(alloc, numbered.sorted.as_slice())?;
    Ok(RankedProtos {
        entries,
        ranks: ranked.ranks,
    })
}
