// The lists of types and the static values that stand in a file, each once.

ghost use Rattle.std.specs.Prelude.{◌≡◌, [], ◌∷◌, All, length, map, IfOk, OnOk};
ghost use Rattle.pi_dextables.specs.Image.{type_lists, value_arrays};
ghost use Rattle.pi_dextables.specs.Items.{lists_in, arrays_in, with_all, list_offset, array_offset};
ghost use Rattle.pi_dextables.specs.Writable.{ClassFits, ValueFits};

use crate::items::{put_array, put_type_list};
use crate::pool::{Piece, add, offset_of};
use indexmap::IndexSet;
use pi_dextables::tables::{Class, Proto, Tables, Value};
use std::alloc::{AllocError, Global};

/// Adds a list of types, unless it is empty or an equal one is there.
fn add_list(alloc: Global, pool: &mut IndexSet<Piece>, types: &[u16]) -> Result<(), AllocError>
    ensures { OnOk result (pool.new.keys ≡ with_all pool.old.keys (lists_in (types.now ∷ []))) }
{
    if types.is_empty() {
        return Ok(());
    }
    let mut bytes = Vec::new(alloc);
    put_type_list(&mut bytes, types)?;
    add(pool, Piece::new(bytes))?;
    Ok(())
}

/// Adds the parameters of prototypes.
fn add_params(alloc: Global, pool: &mut IndexSet<Piece>, protos: &[Proto]) -> Result<(), AllocError>
    ensures { OnOk result (pool.new.keys ≡ with_all pool.old.keys (lists_in (map (λ p. p.params) protos.now))) }
{
    for proto in protos {
        add_list(alloc, pool, proto.params.as_slice())?;
    }
    Ok(())
}

/// Adds the interfaces of classes.
fn add_faces(alloc: Global, pool: &mut IndexSet<Piece>, classes: &[Class]) -> Result<(), AllocError>
    ensures { OnOk result (pool.new.keys ≡ with_all pool.old.keys (lists_in (map (λ c. c.faces) classes.now))) }
{
    for class in classes {
        add_list(alloc, pool, class.faces.as_slice())?;
    }
    Ok(())
}

/// The lists of types that stand in the file.
#[tactic(auto, unfolding(pi_dextables::specs::Image::type_lists))]
pub(crate) fn lists_pool(alloc: Global, tables: &Tables) -> Result<IndexSet<Piece>, AllocError>
    ensures { IfOk result (λ pool. pool.keys ≡ type_lists tables.now) }
{
    let mut pool = IndexSet::new(alloc);
    add_params(alloc, &mut pool, tables.protos.as_slice())?;
    add_faces(alloc, &mut pool, tables.classes.as_slice())?;
    Ok(pool)
}

/// Adds the static values of a class, unless there are none or equal ones are there.
fn add_values(alloc: Global, pool: &mut IndexSet<Piece>, values: &[Value]) -> Result<(), AllocError>
    requires { All ValueFits values.now }
    ensures { OnOk result (pool.new.keys ≡ with_all pool.old.keys (arrays_in (values.now ∷ []))) }
{
    if values.is_empty() {
        return Ok(());
    }
    let mut bytes = Vec::new(alloc);
    put_array(&mut bytes, values)?;
    add(pool, Piece::new(bytes))?;
    Ok(())
}

/// The static values that stand in the file.
#[tactic(auto, unfolding(pi_dextables::specs::Image::value_arrays))]
pub(crate) fn arrays_pool(alloc: Global, tables: &Tables) -> Result<IndexSet<Piece>, AllocError>
    requires { All ClassFits tables.now.classes }
    ensures { IfOk result (λ pool. pool.keys ≡ value_arrays tables.now) }
{
    let mut pool = IndexSet::new(alloc);
    for class in tables.classes.as_slice() {
        add_values(alloc, &mut pool, class.values.as_slice())?;
    }
    Ok(pool)
}

/// The offset of a list of types: 0 where it is empty.
pub(crate) fn list_offset(
    alloc: Global,
    pool: &IndexSet<Piece>,
    offsets: &[usize],
    types: &[u16],
) -> Result<usize, AllocError>
    requires { length offsets.now ≡ length pool.now.keys }
    ensures { IfOk result (λ at. at ≡ list_offset pool.now.keys offsets.now types.now) }
{
    if types.is_empty() {
        return Ok(0);
    }
    let mut bytes = Vec::new(alloc);
    put_type_list(&mut bytes, types)?;
    Ok(offset_of(pool, offsets, &Piece::new(bytes)))
}

/// The offset of the static values of a class: 0 where there are none.
pub(crate) fn array_offset(
    alloc: Global,
    pool: &IndexSet<Piece>,
    offsets: &[usize],
    values: &[Value],
) -> Result<usize, AllocError>
    requires len { length offsets.now ≡ length pool.now.keys }
    requires values { All ValueFits values.now }
    ensures { IfOk result (λ at. at ≡ array_offset pool.now.keys offsets.now values.now) }
{
    if values.is_empty() {
        return Ok(0);
    }
    let mut bytes = Vec::new(alloc);
    put_array(&mut bytes, values)?;
    Ok(offset_of(pool, offsets, &Piece::new(bytes)))
}
