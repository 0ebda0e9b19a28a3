// Rule X14, on the table of prototypes. docs/dex-format.md states it.

ghost use Rattle.std.specs.Prelude.{◌≡◌, ◌+◌, ◌<◌, ◌≤◌, ◌∷◌, ◌&&◌, ℕ, length, map, true, IfOk};
ghost use Rattle.pi_format.specs.Tables.{count_at, proto_ids, string_ids, type_ids};
ghost use Rattle.pi_format.specs.Rules.Entries.{list_fits, list_at};
ghost use Rattle.pi_format.specs.Rules.Descriptors.{short_letter};
ghost use Rattle.pi_format.specs.Rules.Strings.{type_units};
ghost use Rattle.pi_format.specs.Rules.Members.{proto_entry, params_hold, short_agrees, proto_fits, proto_rises, proto_holds, broken_protos};
ghost use Rattle.pi_dexids.specs.Tables.{HasTables};
ghost use Rattle.pi_dexraw.specs.Interfaces.{AreInRange};

use crate::type_lists::{fits, list, size};
use pi_dexids::entries::{PROTO_IDS, STRING_IDS, count, entry, proto_at};
use pi_dexids::texts::spells;
use pi_dexids::types::Types;
use std::alloc::{AllocError, Global};

/// Whether parameters are types of values, with at most 255 argument words.
fn hold_params(types: &Types<'_>, params: &[u16]) -> bool
    requires { length params.now ≤ 255 }
    ensures { result ≡ params_hold types.now params.now }
{
    let mut words = 0;
    for i in 0..params.len() {
        let t = params[i] as usize;
        if !types.is_value(t) {
            return false;
        }
        words += types.words(t);
    }
    words <= 255
}

/// The letters of a short form: that of the result, and one for each parameter.
fn letters(
    alloc: Global,
    types: &Types<'_>,
    ret: usize,
    params: &[u16],
) -> Result<Vec<u16>, AllocError>
    requires ret { ret < count_at types.now type_ids }
    requires range { AreInRange (count_at types.now type_ids) params.now }
    ensures { IfOk result (λ list. list.items ≡ short_letter (type_units types.now ret) ∷ map (λ t. short_letter (type_units types.now t)) params.now) }
{
    let mut list = Vec::new(alloc);
    list.push(types.short(ret))?;
    for i in 0..params.len() {
        list.push(types.short(params[i] as usize))?;
    }
    Ok(list)
}

/// Whether the short form of a prototype spells the result and these parameters.
#[tactic(auto, unfolding(pi_format::specs::Rules::Members::short_agrees))]
fn spells_all(
    alloc: Global,
    types: &Types<'_>,
    i: usize,
    params: &[u16],
) -> Result<bool, AllocError>
    requires counted { i < count_at types.now proto_ids }
    requires short { (proto_entry types.now i).short < count_at types.now string_ids }
    requires ret { (proto_entry types.now i).ret < count_at types.now type_ids }
    requires range { AreInRange (count_at types.now type_ids) params.now }
    requires params { params.now ≡ list_at types.now (proto_entry types.now i).params }
    ensures { IfOk result (λ r. r ≡ short_agrees types.now (proto_entry types.now i)) }
{
    let file = types.file();
    let proto = proto_at(file, i);
    let wanted = letters(alloc, types, proto.ret as usize, params)?;
    spells(alloc, file, proto.short as usize, wanted.as_slice())
}

/// Whether the parameters of a prototype hold and its short form spells them.
#[tactic(auto, using(crate::proofs::Params::many_params, crate::proofs::Params::params_in_range))]
fn agrees(alloc: Global, types: &Types<'_>, i: usize) -> Result<bool, AllocError>
    requires counted { i < count_at types.now proto_ids }
    requires short { (proto_entry types.now i).short < count_at types.now string_ids }
    requires ret { (proto_entry types.now i).ret < count_at types.now type_ids }
    requires fits { list_fits types.now (proto_entry types.now i).params ≡ true }
    ensures { IfOk result (λ r. r ≡ (params_hold types.now (list_at types.now (proto_entry types.now i).params) && short_agrees types.now (proto_entry types.now i))) }
{
    let file = types.file();
    let at = proto_at(file, i).params as usize;
    if size(file, at) > 255 {
        return Ok(false);
    }
    let params = list(alloc, file, at)?;
    if !hold_params(types, params.as_slice()) {
        return Ok(false);
    }
    spells_all(alloc, types, i, params.as_slice())
}

/// Whether a prototype fits.
fn fits_proto(alloc: Global, types: &Types<'_>, i: usize) -> Result<bool, AllocError>
    requires counted { i < count_at types.now proto_ids }
    ensures { IfOk result (λ r. r ≡ proto_fits types.now (proto_entry types.now i)) }
{
    let file = types.file();
    let proto = proto_at(file, i);
    if proto.short as usize >= count(file, STRING_IDS) || proto.ret as usize >= types.count() {
        return Ok(false);
    }
    if !fits(file, proto.params as usize) {
        return Ok(false);
    }
    agrees(alloc, types, i)
}

/// Whether a prototype is behind the one before it.
#[tactic(auto, unfolding(pi_format::specs::Rules::Members::protos_compared))]
fn rises(alloc: Global, file: &[u8], i: usize) -> Result<bool, AllocError>
    requires tables { HasTables file.now }
    requires counted { i < count_at file.now proto_ids }
    requires fits { list_fits file.now (proto_entry file.now i).params ≡ true }
    requires before { (k : ℕ) → k + 1 ≡ i → list_fits file.now (proto_entry file.now k).params ≡ true }
    ensures { IfOk result (λ r. r ≡ proto_rises file.now i) }
{
    if i == 0 {
        return Ok(true);
    }
    let (before, next) = (proto_at(file, i - 1), proto_at(file, i));
    let params_before = list(alloc, file, before.params as usize)?;
    let params = list(alloc, file, next.params as usize)?;
    let by_params = params_before.as_slice().cmp(params.as_slice());
    Ok(before.ret.cmp(&next.ret).then(by_params).is_lt())
}

/// Whether a prototype fits and is behind the one before it.
fn holds(alloc: Global, types: &Types<'_>, i: usize) -> Result<bool, AllocError>
    requires counted { i < count_at types.now proto_ids }
    requires before { (k : ℕ) → k + 1 ≡ i → proto_holds types.now k ≡ true }
    ensures { IfOk result (λ r. r ≡ proto_holds types.now i) }
{
    if !fits_proto(alloc, types, i)? {
        return Ok(false);
    }
    rises(alloc, types.file(), i)
}

/// X14: prototypes fit and rise.
pub(crate) fn protos_rule(alloc: Global, types: &Types<'_>) -> Result<Option<u32>, AllocError>
    ensures { IfOk result (λ r. r ≡ broken_protos types.now) }
{
    let file = types.file();
    for i in 0..count(file, PROTO_IDS) {
        if !holds(alloc, types, i)? {
            return Ok(Some(entry(file, PROTO_IDS, 12, i) as u32));
        }
    }
    Ok(None)
}
