// What the tables lead to, section by section: the bytes of its things, and their offsets in the file.

ghost use Rattle.std.specs.Prelude.{◌≡◌, ◌≤◌, ◌&&◌, ◌++◌, ◌+◌, ◌==◌, ◌*◌, ◌∷◌, [], ℕ, List, All, length, map, IfOk, OnOk, if◌then◌else◌};
ghost use Rattle.std.specs.List.{flat_map, list_all};
ghost use Rattle.pi_bytes.specs.Numbers.{most_bytes};
ghost use Rattle.pi_parts.specs.Parts.{offsets, aligned, aligned_offsets};
ghost use Rattle.pi_dextables.specs.Codes.{code_item, list_places};
ghost use Rattle.pi_dextables.specs.Items.{string_item, lists_in, arrays_in, with_all};
ghost use Rattle.pi_dextables.specs.Rows.{with_body, bodies_in, bodies_of, all_bodies, all_rows, class_data};
ghost use Rattle.pi_dextables.specs.Writable.{BodyFits, MethodFits, ClassFits};
ghost use Rattle.pi_dexlay.specs.Heads.{fit, all_fit};

use crate::codes::put_code;
use crate::items::put_string;
use crate::pool::Piece;
use crate::rows::put_class_data;
use indexmap::IndexSet;
use pi_dextables::tables::{Body, Class, MethodRow};
use pi_model::listed::Units;
use pi_parts::put::{padding, put_zeros};
use std::alloc::{AllocError, Global};

/// The bytes of things one behind the other, and the offset in the file of each: 0 for one without bytes.
#[derive(Drop)]
pub(crate) struct Section {
    pub bytes: Vec<u8>,
    pub offsets: Vec<usize>,
}

/// The code items, and whether all their ranges reach their lists of handlers.
#[derive(Drop)]
pub(crate) struct Codes {
    pub bytes: Vec<u8>,
    pub offsets: Vec<usize>,
    pub fit: bool,
}

/// The lists of types from an offset on, each at a multiple of four.
pub(crate) fn lists_section(
    alloc: Global,
    begin: usize,
    pool: &IndexSet<Piece>,
) -> Result<Section, AllocError>
    requires { begin ≤ most_bytes }
    ensures bytes { IfOk result (λ made. made.bytes.items ≡ aligned (λ (x : List ℕ). x) begin pool.now.keys) }
    ensures offsets { IfOk result (λ made. made.offsets.items ≡ aligned_offsets (λ (x : List ℕ). x) begin pool.now.keys) }
{
    let mut bytes = Vec::new(alloc);
    let mut offsets = Vec::new(alloc);
    for piece in pool.as_slice() {
        let gap = padding(begin + bytes.len());
        put_zeros(&mut bytes, gap)?;
        offsets.push(begin + bytes.len())?;
        bytes.extend_from_slice(piece.as_slice())?;
    }
    Ok(Section { bytes, offsets })
}

/// The code of a method behind the codes that there are, where it has one.
fn put_body(alloc: Global, begin: usize, made: &mut Codes, body: &Body) -> Result<(), AllocError>
    requires begin { begin ≤ most_bytes }
    requires body { BodyFits body.now }
    ensures bytes { OnOk result (made.new.bytes.items ≡ made.old.bytes.items ++ aligned code_item (begin + length made.old.bytes.items) (body.now ∷ [])) }
    ensures offsets { OnOk result (made.new.offsets.items ≡ made.old.offsets.items ++ aligned_offsets code_item (begin + length made.old.bytes.items) (body.now ∷ [])) }
    ensures fit { OnOk result (made.new.fit ≡ (made.old.fit && fit (list_places body.now.lists) body.now.ranges)) }
{
    let gap = padding(begin + made.bytes.len());
    put_zeros(&mut made.bytes, gap)?;
    made.offsets.push(begin + made.bytes.len())?;
    let fits = put_code(alloc, &mut made.bytes, body)?;
    made.fit = made.fit && fits;
    Ok(())
}

/// The same for a method that may have no code.
fn put_code_of(
    alloc: Global,
    begin: usize,
    made: &mut Codes,
    method: &MethodRow,
) -> Result<(), AllocError>
    requires begin { begin ≤ most_bytes }
    requires method { MethodFits method.now }
    ensures bytes { OnOk result (made.new.bytes.items ≡ made.old.bytes.items ++ aligned code_item (begin + length made.old.bytes.items) (with_body method.now.code [])) }
    ensures offsets { OnOk result (made.new.offsets.items ≡ made.old.offsets.items ++ aligned_offsets code_item (begin + length made.old.bytes.items) (with_body method.now.code [])) }
    ensures fit { OnOk result (made.new.fit ≡ (made.old.fit && all_fit (with_body method.now.code []))) }
{
    if let Some(body) = &method.code {
        put_body(alloc, begin, made, body)?;
    }
    Ok(())
}

/// The codes of methods behind those that there are.
fn put_codes(
    alloc: Global,
    begin: usize,
    made: &mut Codes,
    methods: &[MethodRow],
) -> Result<(), AllocError>
    requires begin { begin ≤ most_bytes }
    requires methods { All MethodFits methods.now }
    ensures bytes { OnOk result (made.new.bytes.items ≡ made.old.bytes.items ++ aligned code_item (begin + length made.old.bytes.items) (bodies_in methods.now)) }
    ensures offsets { OnOk result (made.new.offsets.items ≡ made.old.offsets.items ++ aligned_offsets code_item (begin + length made.old.bytes.items) (bodies_in methods.now)) }
    ensures fit { OnOk result (made.new.fit ≡ (made.old.fit && all_fit (bodies_in methods.now))) }
{
    for method in methods {
        put_code_of(alloc, begin, made, method)?;
    }
    Ok(())
}

/// The code items of all classes from an offset on, each at a multiple of four.
pub(crate) fn codes_section(
    alloc: Global,
    begin: usize,
    classes: &[Class],
) -> Result<Codes, AllocError>
    requires begin { begin ≤ most_bytes }
    requires classes { All ClassFits classes.now }
    ensures bytes { IfOk result (λ made. made.bytes.items ≡ aligned code_item begin (all_bodies classes.now)) }
    ensures offsets { IfOk result (λ made. made.offsets.items ≡ aligned_offsets code_item begin (all_bodies classes.now)) }
    ensures fit { IfOk result (λ made. made.fit ≡ all_fit (all_bodies classes.now)) }
{
    let mut made = Codes {
        bytes: Vec::new(alloc),
        offsets: Vec::new(alloc),
        fit: true,
    };
    for class in classes {
        put_codes(alloc, begin, &mut made, class.directs.as_slice())?;
        put_codes(alloc, begin, &mut made, class.virtuals.as_slice())?;
    }
    Ok(made)
}

/// The offset of a thing that begins at an offset and ends at another: 0 where it has no bytes.
fn offset_of(begin: usize, end: usize) -> usize
    ensures { result ≡ (if begin == end then 0 else begin) }
{
    if begin == end { 0 } else { begin }
}

/// The strings from an offset on.
pub(crate) fn strings_section(
    alloc: Global,
    begin: usize,
    strings: &[Units],
) -> Result<Section, AllocError>
    requires { begin ≤ most_bytes }
    ensures bytes { IfOk result (λ made. made.bytes.items ≡ flat_map string_item strings.now) }
    ensures offsets { IfOk result (λ made. made.offsets.items ≡ offsets string_item begin strings.now) }
{
    let mut bytes = Vec::new(alloc);
    let mut offsets = Vec::new(alloc);
    for units in strings {
        let at = begin + bytes.len();
        put_string(alloc, &mut bytes, units.as_slice())?;
        offsets.push(offset_of(at, begin + bytes.len()))?;
    }
    Ok(Section { bytes, offsets })
}

/// The class data of all classes from an offset on, by the offsets of their codes.
pub(crate) fn members_section(
    alloc: Global,
    begin: usize,
    classes: &[Class],
    codes: &[usize],
) -> Result<Section, AllocError>
    requires { begin ≤ most_bytes }
    ensures bytes { IfOk result (λ made. made.bytes.items ≡ flat_map class_data (all_rows codes.now classes.now)) }
    ensures offsets { IfOk result (λ made. made.offsets.items ≡ offsets class_data begin (all_rows codes.now classes.now)) }
{
    let mut bytes = Vec::new(alloc);
    let mut offsets = Vec::new(alloc);
    let mut left = codes;
    for class in classes {
        let at = begin + bytes.len();
        left = put_class_data(&mut bytes, class, left)?;
        offsets.push(offset_of(at, begin + bytes.len()))?;
    }
    Ok(Section { bytes, offsets })
}

/// The static values of classes from an offset on.
pub(crate) fn arrays_section(
    alloc: Global,
    begin: usize,
    pool: &IndexSet<Piece>,
) -> Result<Section, AllocError>
    requires { begin ≤ most_bytes }
    ensures bytes { IfOk result (λ made. made.bytes.items ≡ flat_map (λ (x : List ℕ). x) pool.now.keys) }
    ensures offsets { IfOk result (λ made. made.offsets.items ≡ offsets (λ (x : List ℕ). x) begin pool.now.keys) }
{
    let mut bytes = Vec::new(alloc);
    let mut offsets = Vec::new(alloc);
    for piece in pool.as_slice() {
        let at = begin + bytes.len();
        bytes.extend_from_slice(piece.as_slice())?;
        offsets.push(offset_of(at, begin + bytes.len()))?;
    }
    Ok(Section { bytes, offsets })
}
