// The tables of a file, put behind the header.

ghost use Rattle.std.specs.Prelude.{◌≡◌, ◌++◌, ◌∷◌, [], All, length, OnOk};
ghost use Rattle.std.specs.List.{flat_map};
ghost use Rattle.pi_parts.specs.Parts.{words};
ghost use Rattle.pi_dextables.specs.Image.{parent_word};
ghost use Rattle.pi_dextables.specs.Writable.{ClassFits, ValueFits};
ghost use Rattle.pi_dexlay.specs.Sections.{proto_bytes, definition, all_definitions};

use crate::made::{Made, Pools};
use crate::pool::Piece;
use crate::pools::{array_offset, list_offset};
use indexmap::IndexSet;
use pi_bytes::numbers::NO_INDEX;
use pi_dextables::tables::{Class, Proto};
use pi_parts::put::{put_word, put_words};
use std::alloc::{AllocError, Global};

/// The table of types.
pub(crate) fn put_types(out: &mut Vec<u8>, types: &[u32]) -> Result<(), AllocError>
    ensures { OnOk result (out.new.items ≡ out.old.items ++ words types.now) }
{
    for string in types {
        put_word(out, *string as usize)?;
    }
    Ok(())
}

/// The entry of a prototype, by the lists of types and their offsets.
#[tactic(auto, unfolding(crate::specs::Sections::proto_bytes))]
fn put_proto(
    alloc: Global,
    out: &mut Vec<u8>,
    proto: &Proto,
    pool: &IndexSet<Piece>,
    offsets: &[usize],
) -> Result<(), AllocError>
    requires { length offsets.now ≡ length pool.now.keys }
    ensures { OnOk result (out.new.items ≡ out.old.items ++ proto_bytes pool.now.keys offsets.now proto.now) }
{
    let params = list_offset(alloc, pool, offsets, proto.params.as_slice())?;
    put_words(out, &[proto.short as usize, proto.ret as usize, params])?;
    Ok(())
}

/// The table of prototypes, by the lists of types and their offsets.
pub(crate) fn put_protos(
    alloc: Global,
    out: &mut Vec<u8>,
    protos: &[Proto],
    pool: &IndexSet<Piece>,
    offsets: &[usize],
) -> Result<(), AllocError>
    requires { length offsets.now ≡ length pool.now.keys }
    ensures { OnOk result (out.new.items ≡ out.old.items ++ flat_map (proto_bytes pool.now.keys offsets.now) protos.now) }
{
    for proto in protos {
        put_proto(alloc, out, proto, pool, offsets)?;
    }
    Ok(())
}

/// The word of a superclass.
fn parent_word(parent: Option<u16>) -> usize
    ensures { result ≡ parent_word parent }
{
    match parent {
        None => NO_INDEX as usize,
        Some(ty) => ty as usize,
    }
}

/// The definition of a class whose class data stands at that offset.
fn put_class(
    alloc: Global,
    out: &mut Vec<u8>,
    class: &Class,
    members: usize,
    pools: &Pools,
    made: &Made,
) -> Result<(), AllocError>
    requires lists { length made.now.lists.offsets.items ≡ length pools.now.lists.keys }
    requires arrays { length made.now.arrays.offsets.items ≡ length pools.now.arrays.keys }
    requires values { All ValueFits class.now.values }
    ensures { OnOk result (out.new.items ≡ out.old.items ++ words (definition pools.now made.now class.now members)) }
{
    let faces = list_offset(
        alloc,
        &pools.lists,
        &made.lists.offsets,
        class.faces.as_slice(),
    )?;
    let values = array_offset(
        alloc,
        &pools.arrays,
        &made.arrays.offsets,
        class.values.as_slice(),
    )?;
    put_words(
        out,
        &[
            class.class as usize,
            class.flags as usize,
            parent_word(class.parent),
            faces,
            NO_INDEX as usize,
            0,
            members,
            values,
        ],
    )?;
    Ok(())
}

/// The table of class definitions, by the offsets of their class data.
pub(crate) fn put_classes(
    alloc: Global,
    out: &mut Vec<u8>,
    classes: &[Class],
    members: &[usize],
    pools: &Pools,
    made: &Made,
) -> Result<(), AllocError>
    requires lists { length made.now.lists.offsets.items ≡ length pools.now.lists.keys }
    requires arrays { length made.now.arrays.offsets.items ≡ length pools.now.arrays.keys }
    requires members { length members.now ≡ length classes.now }
    requires classes { All ClassFits classes.now }
    ensures { OnOk result (out.new.items ≡ out.old.items ++ flat_map words (all_definitions pools.now made.now classes.now members.now)) }
{
    for i in 0..classes.len() {
        put_class(alloc, out, &classes[i], members[i], pools, made)?;
    }
    Ok(())
}
