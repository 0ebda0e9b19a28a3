// Fields and methods in rising order.

ghost use Rattle.std.specs.Prelude.{◌≡◌, ◌<◌, ◌^◌, All, map, IfOk};
ghost use Rattle.pi_classtables.specs.Sorted.{sorted, text_order};
ghost use Rattle.pi_dexnumbers.specs.Rows.{row_places, member_row, member_of_row, MemberRowFits};

use crate::lookup::number_at;
use pi_dexpools::gathered::MemberParts;
use pi_dexranks::rank_rows;
use pi_dextables::tables::Member;
use pi_model::listed::Listed;
use std::alloc::{AllocError, Global};

/// Members in rising order, and the place there of each as they stood.
#[derive(Debug, Drop)]
pub(crate) struct RankedMembers {
    pub(crate) entries: Listed<Member>,
    pub(crate) ranks: Listed<u32>,
}

/// A row for each member.
fn member_rows(
    alloc: Global,
    members: &[MemberParts],
    classes: &[u32],
    names: &[u32],
    kinds: &[u32],
) -> Result<Listed<Listed<u32>>, AllocError>
    ensures { IfOk result (λ rows. rows ≡ map (member_row classes.now names.now kinds.now) members.now) }
{
    let mut rows = Listed::new(alloc);
    for member in members {
        let class = number_at(classes, member.class);
        let name = number_at(names, member.name);
        let kind = number_at(kinds, member.kind);
        rows.push(Listed::from_slice(alloc, &[class, name, kind])?)?;
    }
    Ok(rows)
}

/// The entry of a row.
fn member_of(row: &[u32]) -> Member
    requires { MemberRowFits row.now }
    ensures { result ≡ member_of_row row.now }
{
    Member {
        class: row[0] as u16,
        kind: row[2] as u16,
        name: row[1],
    }
}

/// The entry of each row.
fn member_entries(alloc: Global, rows: &[Listed<u32>]) -> Result<Listed<Member>, AllocError>
    requires { All MemberRowFits rows.now }
    ensures { IfOk result (λ entries. entries ≡ map member_of_row rows.now) }
{
    let mut entries = Listed::new(alloc);
    for row in rows {
        entries.push(member_of(row.as_slice()))?;
    }
    Ok(entries)
}

/// Members in rising order; `classes`, `names` and `kinds` are the numbers of what they are made of.
pub(crate) fn rank_members(
    alloc: Global,
    members: &[MemberParts],
    classes: &[u32],
    names: &[u32],
    kinds: &[u32],
) -> Result<RankedMembers, AllocError>
    requires classes { All (λ n. n < 2 ^ 16) classes.now }
    requires kinds { All (λ n. n < 2 ^ 16) kinds.now }
    ensures entries { IfOk result (λ r. r.entries ≡ map member_of_row (sorted text_order (map (member_row classes.now names.now kinds.now) members.now))) }
    ensures ranks { IfOk result (λ r. r.ranks ≡ row_places (map (member_row classes.now names.now kinds.now) members.now)) }
{
    let ranked = rank_rows(alloc, member_rows(alloc, members, classes, names, kinds)?)?;
    let entries = member_entries(alloc, ranked.sorted.as_slice())?;
    Ok(RankedMembers {
        entries,
        ranks: ranked.ranks,
    })
}
