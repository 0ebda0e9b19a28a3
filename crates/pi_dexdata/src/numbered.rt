// Ranges with handlers, by the numbers of their lists.

ghost use Rattle.std.specs.Prelude.{◌≡◌, IfOk};
ghost use Rattle.pi_classtables.specs.Ranges.{lists_of, ranges_of};

use crate::groups::Group;
use crate::spellings::list_number;
use indexmap::IndexSet;
use pi_dextables::tables::{Catches, Range};
use pi_model::listed::Listed;
use std::alloc::{AllocError, Global};

/// The ranges of a code with handlers, and their lists, each of which stands once.
#[derive(Debug, Drop)]
pub struct Handlers {
    pub ranges: Listed<Range>,
    pub lists: Listed<Catches>,
}

/// Ranges with the numbers of their lists.
pub(crate) fn number_lists(alloc: Global, groups: Listed<Group>) -> Result<Handlers, AllocError>
    ensures ranges { IfOk result (λ h. h.ranges ≡ ranges_of groups) }
    ensures lists { IfOk result (λ h. h.lists ≡ lists_of groups) }
{
    let mut spellings = IndexSet::new(alloc);
    let mut lists = Listed::new(alloc);
    let mut ranges = Listed::new(alloc);
    for group in groups.into_vec() {
        let Group {
            from,
            size,
            catches,
        } = group;
        let list = list_number(alloc, &mut spellings, &mut lists, catches)?;
        ranges.push(Range { from, size, list })?;
    }
    Ok(Handlers { ranges, lists })
}
