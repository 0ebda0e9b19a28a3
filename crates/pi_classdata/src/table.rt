// The members of each class of a file, and rule X18. docs/dex-format.md states it.

ghost use Rattle.std.specs.Prelude.{◌≡◌, ◌<◌, ◌++◌, ◌∷◌, [], ℕ, Some, IfOk, OnOk, is_some, length, slice_get};
ghost use Rattle.pi_format.specs.Tables.{count_at, class_defs};
ghost use Rattle.pi_format.specs.Rules.Header.{unless};
ghost use Rattle.pi_format.specs.Rules.Lowest.{lower, tabulation};
ghost use Rattle.pi_format.specs.Rules.ClassData.{class_data_at, class_rows, rows_of, broken_class_data};

use crate::read::class_rows;
use crate::rows::ClassRows;
use pi_dexraw::Raw;
use std::alloc::{AllocError, Global};
use std::marker::Model;

/// The members of each class of a file, by the number of its definition.
#[derive(Debug, Drop)]
pub struct RowTable {
    classes: Vec<ClassRows>,
}

impl Model for RowTable {
    ghost use Rattle.std.specs.Prelude.{List};
    ghost use Rattle.pi_format.specs.Rules.ClassData.{ClassRows};

    ghost Value = { List ClassRows };

    ghost view = { λ table. table.classes.items };
}

impl RowTable {
    /// How many classes it has.
    pub fn len(&self) -> usize
        ensures { result ≡ length self.now }
    {
        self.classes.len()
    }

    /// The members of a class.
    pub fn get(&self, i: u32) -> &ClassRows
        requires { i < length self.now }
        ensures value { slice_get self.now i ≡ Some result.now }
        ensures listed { (f : ℕ → ClassRows) (n : ℕ) → self.now ≡ tabulation f 0 n → result.now ≡ f i }
    {
        &self.classes[i as usize]
    }
}

/// The lower of two places.
pub fn lower(a: Option<u32>, b: Option<u32>) -> Option<u32>
    ensures { result ≡ lower a b }
{
    match (a, b) {
        (None, b) => b,
        (Some(a), None) => Some(a),
        (Some(a), Some(b)) => Some(if a <= b { a } else { b }),
    }
}

/// The place of the class data of a class, if it does not hold, and the members of the class, none if it does not.
fn judged(alloc: Global, raw: &Raw<'_>, i: u32) -> Result<(Option<u32>, ClassRows), AllocError>
    requires { i < count_at raw.now class_defs }
    ensures broken { IfOk result (λ r. r.0 ≡ unless (is_some (class_rows raw.now i)) (class_data_at raw.now i)) }
    ensures rows { IfOk result (λ r. r.1 ≡ rows_of raw.now i) }
{
    match class_rows(alloc, raw, i)? {
        Some(rows) => Ok((None, rows)),
        None => Ok((Some(raw.class_entry(i).data_at), ClassRows::none(alloc))),
    }
}

/// X18: the class data of each class holds. With the lowest place at which it is broken come the members of all classes.
#[tactic(auto, using(pi_format::proofs::Loops::lowest_done, pi_format::proofs::Loops::listed_done))]
pub fn read_rows(alloc: Global, raw: &Raw<'_>) -> Result<(Option<u32>, RowTable), AllocError>
    ensures broken { IfOk result (λ r. r.0 ≡ broken_class_data raw.now) }
    ensures rows { IfOk result (λ r. r.1 ≡ tabulation (rows_of raw.now) 0 (count_at raw.now class_defs)) }
{
    let mut broken = None;
    let mut classes = Vec::new(alloc);
    for i in 0..raw.class_defs() {
        let (place, rows) = judged(alloc, raw, i)?;
        broken = lower(broken, place);
        classes.push(rows)?;
    }
    Ok((broken, RowTable { classes }))
}
