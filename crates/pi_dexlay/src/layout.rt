// The header of a file and its map, which say where everything else stands.

ghost use Rattle.std.specs.Prelude.{◌≡◌, ◌++◌, ◌==◌, ◌∷◌, [], ◌<◌, ◌≤◌, length, map, OnOk, if◌then◌else◌};
ghost use Rattle.std.specs.List.{flat_map};
ghost use Rattle.pi_parts.specs.Parts.{words};
ghost use Rattle.pi_dextables.specs.Image.{item_bytes, standing, map_part, header_words, where_some};
ghost use Rattle.pi_dexlay.specs.Causes.{AreBegins};
ghost use Rattle.pi_dexlay.specs.Layout.{read_item, table_kinds, data_kinds, table_words};
ghost use Rattle.pi_dexlay.specs.Sections.{ArePools, AreMade, ArePlaces};

use crate::begins::Begins;
use crate::kinds::listing;
use crate::made::{Made, Places, Pools};
use pi_dextables::tables::Tables;
use pi_parts::put::{padding, put_half, put_word, put_words};
use std::alloc::AllocError;

/// An item of the map: its kind, how many things of it there are, and where they begin.
#[derive(Clone, Copy, Debug)]
pub(crate) struct Item {
    pub kind: usize,
    pub count: usize,
    pub offset: usize,
}

/// An item of the map.
#[tactic(auto, unfolding(pi_dextables::specs::Image::item_bytes))]
fn put_item(out: &mut Vec<u8>, item: &Item) -> Result<(), AllocError>
    ensures { OnOk result (out.new.items ≡ out.old.items ++ item_bytes (read_item item.now)) }
{
    put_half(out, item.kind)?;
    put_half(out, 0)?;
    put_words(out, &[item.count, item.offset])?;
    Ok(())
}

/// An item, where there is something of its kind.
fn put_standing(out: &mut Vec<u8>, item: &Item) -> Result<(), AllocError>
    ensures { OnOk result (out.new.items ≡ out.old.items ++ flat_map item_bytes (standing (read_item item.now ∷ []))) }
{
    if item.count > 0 {
        put_item(out, item)?;
    }
    Ok(())
}

/// The items of kinds of which there is something.
fn put_items(out: &mut Vec<u8>, items: &[Item]) -> Result<(), AllocError>
    ensures { OnOk result (out.new.items ≡ out.old.items ++ flat_map item_bytes (standing (map read_item items.now))) }
{
    for item in items {
        put_standing(out, item)?;
    }
    Ok(())
}

/// The items of the header, the tables and the map itself.
fn put_table_items(out: &mut Vec<u8>, tables: &Tables, begins: &Begins) -> Result<(), AllocError>
    requires { AreBegins tables.now begins.now }
    ensures { OnOk result (out.new.items ≡ out.old.items ++ flat_map item_bytes (standing (table_kinds tables.now))) }
{
    put_items(
        out,
        &[
            Item {
                kind: 0,
                count: 1,
                offset: 0,
            },
            Item {
                kind: 1,
                count: tables.strings.len(),
                offset: 112,
            },
            Item {
                kind: 2,
                count: tables.types.len(),
                offset: begins.types,
            },
            Item {
                kind: 3,
                count: tables.protos.len(),
                offset: begins.protos,
            },
            Item {
                kind: 4,
                count: tables.fields.len(),
                offset: begins.fields,
            },
            Item {
                kind: 5,
                count: tables.methods.len(),
                offset: begins.methods,
            },
            Item {
                kind: 6,
                count: tables.classes.len(),
                offset: begins.classes,
            },
            Item {
                kind: 0x1000,
                count: 1,
                offset: begins.map,
            },
        ],
    )?;
    Ok(())
}

/// The items of what the tables lead to.
fn put_data_items(
    out: &mut Vec<u8>,
    tables: &Tables,
    pools: &Pools,
    made: &Made,
) -> Result<(), AllocError>
    requires pools { ArePools tables.now pools.now }
    requires made { AreMade tables.now made.now }
    ensures { OnOk result (out.new.items ≡ out.old.items ++ flat_map item_bytes (standing (data_kinds tables.now))) }
{
    let places = made.places;
    put_items(
        out,
        &[
            Item {
                kind: 0x1001,
                count: pools.lists.len(),
                offset: places.lists,
            },
            Item {
                kind: 0x2001,
                count: made.codes.offsets.len(),
                offset: places.codes + padding(places.codes),
            },
            Item {
                kind: 0x2002,
                count: tables.strings.len(),
                offset: places.strings,
            },
            Item {
                kind: 0x2000,
                count: listing(tables.classes.as_slice()),
                offset: places.members,
            },
            Item {
                kind: 0x2005,
                count: pools.arrays.len(),
                offset: places.arrays,
            },
        ],
    )?;
    Ok(())
}

/// The map.
pub(crate) fn put_map(
    out: &mut Vec<u8>,
    tables: &Tables,
    begins: &Begins,
    pools: &Pools,
    made: &Made,
) -> Result<(), AllocError>
    requires begins { AreBegins tables.now begins.now }
    requires pools { ArePools tables.now pools.now }
    requires made { AreMade tables.now made.now }
    ensures { OnOk result (out.new.items ≡ out.old.items ++ map_part tables.now) }
{
    put_word(out, pools.kinds)?;
    put_table_items(out, tables, begins)?;
    put_data_items(out, tables, pools, made)?;
    Ok(())
}

/// The offset of a table in the header: 0 where the table is empty.
fn where_some(count: usize, at: usize) -> usize
    ensures { result ≡ where_some count at }
{
    if count == 0 { 0 } else { at }
}

/// The counts and the offsets of the tables.
fn put_table_words(out: &mut Vec<u8>, tables: &Tables, begins: &Begins) -> Result<(), AllocError>
    requires { AreBegins tables.now begins.now }
    ensures { OnOk result (out.new.items ≡ out.old.items ++ words (table_words tables.now)) }
{
    put_words(
        out,
        &[
            tables.strings.len(),
            where_some(tables.strings.len(), 112),
            tables.types.len(),
            where_some(tables.types.len(), begins.types),
            tables.protos.len(),
            where_some(tables.protos.len(), begins.protos),
            tables.fields.len(),
            where_some(tables.fields.len(), begins.fields),
            tables.methods.len(),
            where_some(tables.methods.len(), begins.methods),
            tables.classes.len(),
            where_some(tables.classes.len(), begins.classes),
        ],
    )?;
    Ok(())
}

/// The header from the file's length on.
pub(crate) fn put_header(
    out: &mut Vec<u8>,
    tables: &Tables,
    begins: &Begins,
    places: &Places,
) -> Result<(), AllocError>
    requires begins { AreBegins tables.now begins.now }
    requires places { ArePlaces tables.now places.now }
    ensures { OnOk result (out.new.items ≡ out.old.items ++ words (header_words tables.now)) }
{
    put_words(out, &[places.end, 112, 0x12345678, 0, 0, begins.map])?;
    put_table_words(out, tables, begins)?;
    put_words(out, &[places.end - begins.map, begins.map])?;
    Ok(())
}
