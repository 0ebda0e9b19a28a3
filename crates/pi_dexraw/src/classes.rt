// Rule X17, on the table of class definitions. docs/dex-format.md states it.

ghost use Rattle.std.specs.Prelude.{◌≡◌, ◌≢◌, ◌+◌, ◌<◌, ◌≤◌, ◌&&◌, ℕ, length, nat_le, true, Some, slice_get, IfSome, IfOk};
ghost use Rattle.pi_bytes.specs.Numbers.{word_end};
ghost use Rattle.pi_format.specs.Tables.{count_at, class_defs, type_ids};
ghost use Rattle.pi_format.specs.Rules.Entries.{list_fits, list_at};
ghost use Rattle.pi_format.specs.Rules.Classes.{class_entry, is_class_id, stands_earlier, parent_holds, faces_hold, class_holds, broken_classes};
ghost use Rattle.pi_dexids.specs.Tables.{HasTables};
ghost use Rattle.pi_dexraw.specs.Interfaces.{AreInRange, AreFaces, AreJudged, AreKnown, none_before};

use crate::distinct::are_distinct;
use crate::type_lists::{fits, list};
use pi_bytes::numbers::NO_INDEX;
use pi_dexids::entries::{CLASS_DEFS, class_def_at, count, entry};
use pi_dexids::facts::{note, numbers};
use pi_dexids::types::Types;
use std::alloc::{AllocError, Global};

/// Whether a type that the file defines is defined before a definition.
#[tactic(auto, unfolding(pi_format::specs::Rules::Classes::stands_earlier))]
fn is_earlier(types: &Types<'_>, i: usize, t: usize) -> bool
    requires counted { i < count_at types.now class_defs }
    requires range { t < count_at types.now type_ids }
    ensures { result ≡ stands_earlier types.now i t }
{
    let all = count(types.file(), CLASS_DEFS);
    !types.is_defined(all, t) || types.is_defined(i, t)
}

/// Whether exactly Object has no superclass, and any other one that stands earlier if the file defines it.
#[tactic(auto, unfolding(pi_format::specs::Rules::Classes::parent_holds))]
fn holds_parent(alloc: Global, types: &Types<'_>, i: usize) -> Result<bool, AllocError>
    requires counted { i < count_at types.now class_defs }
    requires range { (class_entry types.now i).class < count_at types.now type_ids }
    ensures { IfOk result (λ r. r ≡ parent_holds types.now i (class_entry types.now i)) }
{
    let class = class_def_at(types.file(), i);
    let is_object = types.is_object(alloc, class.class as usize)?;
    let parent = class.parent as usize;
    if class.parent == NO_INDEX {
        return Ok(is_object);
    }
    Ok(!is_object && parent < types.count() && is_earlier(types, i, parent))
}

/// Whether there is a type of that number, and it is a class.
fn is_class(types: &Types<'_>, t: usize) -> bool
    ensures { result ≡ is_class_id types.now t }
{
    t < types.count() && types.is_class(t)
}

/// The greater of two numbers.
#[tactic(auto, using(crate::proofs::Judged::second_greater, crate::proofs::Judged::first_greater))]
fn greater(a: usize, b: usize) -> usize
    ensures value { (i : ℕ) → nat_le result i ≡ (nat_le a i && nat_le b i) }
    ensures few { (n : ℕ) → a ≤ n → b ≤ n → result ≤ n }
{
    if a < b { b } else { a }
}

/// From which definition on types are classes that stand earlier if the file defines them, if from any.
fn faces_from(types: &Types<'_>, faces: &[u16]) -> Option<usize>
    ensures value { AreFaces types.now faces.now result }
    ensures range { IfSome result (λ n. AreInRange (count_at types.now type_ids) faces.now) }
    ensures few { IfSome result (λ n. n ≤ count_at types.now class_defs) }
{
    let mut from = 0;
    for k in 0..faces.len() {
        let t = faces[k] as usize;
        if !is_class(types, t) {
            return None;
        }
        from = greater(from, types.behind(t));
    }
    Some(from)
}

/// The same of types that are distinct too.
#[tactic(auto, using(crate::proofs::Marks::wider, crate::proofs::Judged::both_judged, crate::proofs::Judged::no_faces, crate::proofs::Judged::not_distinct))]
fn judge(types: &Types<'_>, marks: &mut Vec<u32>, mark: u32, faces: &[u16]) -> Option<usize>
    requires marks { length marks.old.items ≡ count_at types.now type_ids }
    requires fresh { AreInRange mark marks.old.items }
    ensures value { AreJudged types.now faces.now result }
    ensures few { IfSome result (λ n. n ≤ count_at types.now class_defs) }
    ensures same { length marks.new.items ≡ length marks.old.items }
    ensures kept { AreInRange (mark + 1) marks.new.items }
{
    match faces_from(types, faces) {
        None => None,
        Some(from) => {
            if are_distinct(marks, mark, faces) {
                Some(from)
            } else {
                None
            }
        }
    }
}

/// What is known of a list, 0 where nothing is.
fn recall(known: &[u32], k: usize) -> u32
    ensures { result ≢ 0 → slice_get known.now k ≡ Some result }
{
    if k < known.len() { known[k] } else { 0 }
}

/// Keeps from which definition on the list at an offset has distinct classes that stand earlier.
#[tactic(auto, using(crate::proofs::Judged::learned, crate::proofs::Judged::few_classes))]
fn learn(types: &Types<'_>, known: &mut Vec<u32>, at: usize, from: Option<usize>)
    requires fits { list_fits types.now at ≡ true }
    requires value { AreJudged types.now (list_at types.now at) from }
    requires few { IfSome from (λ n. n ≤ count_at types.now class_defs) }
    requires known { AreKnown types.now known.old.items }
    ensures { AreKnown types.now known.new.items }
{
    let file = types.file();
    if let Some(n) = from {
        note(known, at / 4, n as u32 + 1);
    }
}

/// From which definition on the list at an offset has distinct classes that stand earlier, if from any.
fn judge_list(
    alloc: Global,
    types: &Types<'_>,
    marks: &mut Vec<u32>,
    mark: u32,
    at: usize,
) -> Result<Option<usize>, AllocError>
    requires marks { length marks.old.items ≡ count_at types.now type_ids }
    requires fresh { AreInRange mark marks.old.items }
    requires fits { list_fits types.now at ≡ true }
    requires small { at < word_end }
    ensures value { IfOk result (λ r. AreJudged types.now (list_at types.now at) r) }
    ensures few { IfOk result (λ r. IfSome r (λ n. n ≤ count_at types.now class_defs)) }
    ensures same { length marks.new.items ≡ length marks.old.items }
    ensures kept { AreInRange (mark + 1) marks.new.items }
{
    let faces = list(alloc, types.file(), at)?;
    Ok(judge(types, marks, mark, faces.as_slice()))
}

/// The same. A list of which it is known is not read again.
#[tactic(auto, using(crate::proofs::Marks::wider, crate::proofs::Judged::recalled))]
fn judge_once(
    alloc: Global,
    types: &Types<'_>,
    marks: &mut Vec<u32>,
    mark: u32,
    known: &mut Vec<u32>,
    at: usize,
) -> Result<Option<usize>, AllocError>
    requires marks { length marks.old.items ≡ count_at types.now type_ids }
    requires fresh { AreInRange mark marks.old.items }
    requires known { AreKnown types.now known.old.items }
    requires fits { list_fits types.now at ≡ true }
    requires small { at < word_end }
    ensures value { IfOk result (λ r. AreJudged types.now (list_at types.now at) r) }
    ensures same { length marks.new.items ≡ length marks.old.items }
    ensures kept { AreInRange (mark + 1) marks.new.items }
    ensures known { AreKnown types.now known.new.items }
{
    let before = recall(known.as_slice(), at / 4);
    if before != 0 {
        return Ok(Some(before as usize - 1));
    }
    let from = judge_list(alloc, types, marks, mark, at)?;
    learn(types, known, at, from);
    Ok(from)
}

/// Whether a definition is one from which on something holds: that one or a later one.
fn is_from(from: Option<usize>, i: usize) -> bool
    ensures { result ≡ none_before from i }
{
    match from {
        None => false,
        Some(n) => n <= i,
    }
}

/// Whether interfaces are distinct classes, each of which stands earlier if the file defines it.
#[tactic(auto, using(crate::proofs::Marks::wider), unfolding(pi_format::specs::Rules::Classes::faces_hold))]
fn hold_faces(
    alloc: Global,
    types: &Types<'_>,
    marks: &mut Vec<u32>,
    mark: u32,
    known: &mut Vec<u32>,
    i: usize,
) -> Result<bool, AllocError>
    requires counted { i < count_at types.now class_defs }
    requires marks { length marks.old.items ≡ count_at types.now type_ids }
    requires fresh { AreInRange mark marks.old.items }
    requires known { AreKnown types.now known.old.items }
    ensures value { IfOk result (λ r. r ≡ faces_hold types.now i (class_entry types.now i)) }
    ensures same { length marks.new.items ≡ length marks.old.items }
    ensures kept { AreInRange (mark + 1) marks.new.items }
    ensures known { AreKnown types.now known.new.items }
{
    let file = types.file();
    let at = class_def_at(file, i).faces as usize;
    if !fits(file, at) {
        return Ok(false);
    }
    let from = judge_once(alloc, types, marks, mark, known, at)?;
    Ok(is_from(from, i))
}

/// Whether a definition is that of a class that was not defined before, with a superclass and interfaces that hold.
#[tactic(auto, using(crate::proofs::Marks::wider))]
fn holds(
    alloc: Global,
    types: &Types<'_>,
    marks: &mut Vec<u32>,
    mark: u32,
    known: &mut Vec<u32>,
    i: usize,
) -> Result<bool, AllocError>
    requires counted { i < count_at types.now class_defs }
    requires marks { length marks.old.items ≡ count_at types.now type_ids }
    requires fresh { AreInRange mark marks.old.items }
    requires known { AreKnown types.now known.old.items }
    ensures value { IfOk result (λ r. r ≡ class_holds types.now i) }
    ensures same { length marks.new.items ≡ length marks.old.items }
    ensures kept { AreInRange (mark + 1) marks.new.items }
    ensures known { AreKnown types.now known.new.items }
{
    let class = class_def_at(types.file(), i).class as usize;
    if class >= types.count() || !types.is_class(class) {
        return Ok(false);
    }
    if types.is_defined(i, class) {
        return Ok(false);
    }
    if !holds_parent(alloc, types, i)? {
        return Ok(false);
    }
    hold_faces(alloc, types, marks, mark, known, i)
}

/// X17: classes are defined once, and what they name stands earlier.
pub(crate) fn classes_rule(alloc: Global, types: &Types<'_>) -> Result<Option<u32>, AllocError>
    ensures { IfOk result (λ r. r ≡ broken_classes types.now) }
{
    let file = types.file();
    let mut marks = numbers(alloc, types.count(), 0)?;
    let mut known = numbers(alloc, file.len() / 4, 0)?;
    for i in 0..count(file, CLASS_DEFS) {
        if !holds(alloc, types, &mut marks, i as u32 + 1, &mut known, i)? {
            return Ok(Some(entry(file, CLASS_DEFS, 32, i) as u32));
        }
    }
    Ok(None)
}
