// The whole file.

ghost use Rattle.std.specs.Prelude.{◌≡◌, ◌≤◌, ◌++◌, true, length, IfOk, IfErr, OnOk};
ghost use Rattle.pi_format.specs.Tables.{magic};
ghost use Rattle.pi_parts.specs.Parts.{zeros};
ghost use Rattle.pi_dextables.specs.Image.{image, contents, tables_part, map_part, data_part};
ghost use Rattle.pi_dextables.specs.Said.{HasForm, IsSaid};
ghost use Rattle.pi_dextables.specs.Writable.{IsWritable, IsShort, PlacesFit};
ghost use Rattle.pi_dexlay.specs.Causes.{IsCause, AreBegins};
ghost use Rattle.pi_dexlay.specs.Layout.{ids_part, owned_part};
ghost use Rattle.pi_dexlay.specs.Sections.{ArePools, AreMade};

use crate::begins::{Begins, begins_of};
use crate::entries::{put_classes, put_protos, put_types};
use crate::fault::LayError;
use crate::items::put_members;
use crate::layout::{put_header, put_map};
use crate::made::{Made, Pools, made_of, pools_of};
use crate::sign::sign;
use pi_dextables::tables::Tables;
use pi_parts::put::{put_words, put_zeros};
use std::alloc::{AllocError, Global};

/// The tables of strings, types and prototypes.
fn put_ids(
    alloc: Global,
    out: &mut Vec<u8>,
    tables: &Tables,
    pools: &Pools,
    made: &Made,
) -> Result<(), AllocError>
    requires pools { ArePools tables.now pools.now }
    requires made { AreMade tables.now made.now }
    ensures { OnOk result (out.new.items ≡ out.old.items ++ ids_part tables.now) }
{
    put_words(out, &made.strings.offsets)?;
    put_types(out, tables.types.as_slice())?;
    put_protos(
        alloc,
        out,
        tables.protos.as_slice(),
        &pools.lists,
        &made.lists.offsets,
    )?;
    Ok(())
}

/// The tables of fields, methods and classes.
fn put_owned(
    alloc: Global,
    out: &mut Vec<u8>,
    tables: &Tables,
    pools: &Pools,
    made: &Made,
) -> Result<(), AllocError>
    requires pools { ArePools tables.now pools.now }
    requires made { AreMade tables.now made.now }
    requires writable { IsWritable tables.now }
    ensures { OnOk result (out.new.items ≡ out.old.items ++ owned_part tables.now) }
{
    put_members(out, tables.fields.as_slice())?;
    put_members(out, tables.methods.as_slice())?;
    put_classes(
        alloc,
        out,
        tables.classes.as_slice(),
        &made.members.offsets,
        pools,
        made,
    )?;
    Ok(())
}

/// What the tables lead to.
fn put_data(out: &mut Vec<u8>, tables: &Tables, made: &Made) -> Result<(), AllocError>
    requires { AreMade tables.now made.now }
    ensures { OnOk result (out.new.items ≡ out.old.items ++ data_part tables.now) }
{
    out.extend_from_slice(&made.lists.bytes)?;
    out.extend_from_slice(&made.codes.bytes)?;
    out.extend_from_slice(&made.strings.bytes)?;
    out.extend_from_slice(&made.members.bytes)?;
    out.extend_from_slice(&made.arrays.bytes)?;
    Ok(())
}

/// The file behind the signature.
fn put_contents(
    alloc: Global,
    out: &mut Vec<u8>,
    tables: &Tables,
    begins: &Begins,
    pools: &Pools,
    made: &Made,
) -> Result<(), AllocError>
    requires begins { AreBegins tables.now begins.now }
    requires pools { ArePools tables.now pools.now }
    requires made { AreMade tables.now made.now }
    requires writable { IsWritable tables.now }
    ensures { OnOk result (out.new.items ≡ out.old.items ++ contents tables.now) }
{
    put_header(out, tables, begins, &made.places)?;
    put_ids(alloc, out, tables, pools, made)?;
    put_owned(alloc, out, tables, pools, made)?;
    put_map(out, tables, begins, pools, made)?;
    put_data(out, tables, made)?;
    Ok(())
}

/// The file whose sections were made.
fn assemble(
    alloc: Global,
    tables: &Tables,
    begins: &Begins,
    pools: &Pools,
    made: &Made,
) -> Result<Vec<u8>, AllocError>
    requires begins { AreBegins tables.now begins.now }
    requires pools { ArePools tables.now pools.now }
    requires made { AreMade tables.now made.now }
    requires writable { IsWritable tables.now }
    ensures { IfOk result (λ file. file.items ≡ image tables.now) }
{
    let mut out = Vec::new(alloc);
    out.extend_from_slice(b"dex\n035\0")?;
    put_zeros(&mut out, 24)?;
    put_contents(alloc, &mut out, tables, begins, pools, made)?;
    sign(&mut out);
    Ok(out)
}

/// The bytes of a file whose tables are those.
///
/// Memory and time grow with the tables. A file that would be too long is never assembled.
pub fn write(alloc: Global, tables: &Tables) -> Result<Vec<u8>, LayError>
    requires { IsWritable tables.now }
    ensures bytes { IfOk result (λ file. file.items ≡ image tables.now) }
    ensures form { IfOk result (λ file. HasForm file.items) }
    ensures said { IfOk result (λ file. IsSaid file.items tables.now) }
    ensures short { OnOk result (IsShort tables.now) }
    ensures places { OnOk result (PlacesFit tables.now) }
    ensures fault { IfErr result (IsCause tables.now) }
{
    let Some(begins) = begins_of(tables) else {
        return Err(LayError::TooLong);
    };
    let pools = pools_of(alloc, tables)?;
    let made = made_of(alloc, tables, &pools, begins.map)?;
    if !made.codes.fit {
        return Err(LayError::HandlerOffset);
    }
    let file = assemble(alloc, tables, &begins, &pools, &made)?;
    Ok(file)
}
