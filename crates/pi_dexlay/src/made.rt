// All that the tables lead to, with the places where its sections begin.

ghost use Rattle.std.specs.Prelude.{◌≡◌, ◌≤◌, ◌<◌, ◌+◌, All, length, IfOk, IfErr};
ghost use Rattle.pi_bytes.specs.Numbers.{most_bytes};
ghost use Rattle.pi_dextables.specs.Image.{type_lists, value_arrays, map_begin};
ghost use Rattle.pi_dextables.specs.Writable.{ClassFits};
ghost use Rattle.pi_dexlay.specs.Causes.{IsCause};
ghost use Rattle.pi_dexlay.specs.Sections.{ArePools, AreMade};

use crate::begins::end_of;
use crate::fault::LayError;
use crate::kinds::kinds_of;
use crate::pool::Piece;
use crate::pools::{arrays_pool, lists_pool};
use crate::sections::{
    Codes, Section, arrays_section, codes_section, lists_section, members_section, strings_section,
};
use indexmap::IndexSet;
use pi_dextables::tables::Tables;
use std::alloc::Global;

/// Where the sections begin, and the end of the file.
#[derive(Clone, Copy, Debug)]
pub(crate) struct Places {
    pub lists: usize,
    pub codes: usize,
    pub strings: usize,
    pub members: usize,
    pub arrays: usize,
    pub end: usize,
}

/// The lists of types and the arrays of static values that stand in the file, and how many kinds its map names.
#[derive(Drop)]
pub(crate) struct Pools {
    pub lists: IndexSet<Piece>,
    pub arrays: IndexSet<Piece>,
    pub kinds: usize,
}

/// The sections of a file.
#[derive(Drop)]
pub(crate) struct Made {
    pub lists: Section,
    pub codes: Codes,
    pub strings: Section,
    pub members: Section,
    pub arrays: Section,
    pub places: Places,
}

/// The things of which equal ones stand once.
pub(crate) fn pools_of(alloc: Global, tables: &Tables) -> Result<Pools, LayError>
    requires { All ClassFits tables.now.classes }
    ensures pools { IfOk result (ArePools tables.now) }
    ensures fault { IfErr result (IsCause tables.now) }
{
    let lists = lists_pool(alloc, tables)?;
    let arrays = arrays_pool(alloc, tables)?;
    let kinds = kinds_of(tables, lists.len(), arrays.len());
    Ok(Pools {
        lists,
        arrays,
        kinds,
    })
}

/// The sections of a file whose map begins there.
pub(crate) fn made_of(
    alloc: Global,
    tables: &Tables,
    pools: &Pools,
    map: usize,
) -> Result<Made, LayError>
    requires map { map ≡ map_begin tables.now }
    requires few { map ≤ most_bytes }
    requires pools { ArePools tables.now pools.now }
    requires classes { All ClassFits tables.now.classes }
    ensures made { IfOk result (AreMade tables.now) }
    ensures fault { IfErr result (IsCause tables.now) }
{
    let classes = tables.classes.as_slice();
    let Some(lists_at) = end_of(map, 4 + 12 * pools.kinds) else {
        return Err(LayError::TooLong);
    };
    let lists = lists_section(alloc, lists_at, &pools.lists)?;
    let Some(codes_at) = end_of(lists_at, lists.bytes.len()) else {
        return Err(LayError::TooLong);
    };
    let codes = codes_section(alloc, codes_at, classes)?;
    let Some(strings_at) = end_of(codes_at, codes.bytes.len()) else {
        return Err(LayError::TooLong);
    };
    let strings = strings_section(alloc, strings_at, tables.strings.as_slice())?;
    let Some(members_at) = end_of(strings_at, strings.bytes.len()) else {
        return Err(LayError::TooLong);
    };
    let members = members_section(alloc, members_at, classes, &codes.offsets)?;
    let Some(arrays_at) = end_of(members_at, members.bytes.len()) else {
        return Err(LayError::TooLong);
    };
    let arrays = arrays_section(alloc, arrays_at, &pools.arrays)?;
    let Some(end) = end_of(arrays_at, arrays.bytes.len()) else {
        return Err(LayError::TooLong);
    };
    let places = Places {
        lists: lists_at,
        codes: codes_at,
        strings: strings_at,
        members: members_at,
        arrays: arrays_at,
        end,
    };
    Ok(Made {
        lists,
        codes,
        strings,
        members,
        arrays,
        places,
    })
}
