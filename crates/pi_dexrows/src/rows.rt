// The methods of a class as rows, in the order in which the class lists them.

ghost use Rattle.std.specs.Prelude.{◌≡◌, ◌≤◌, ℕ, List, [], length, slice_index_or, OnOk, IfOk, IsTrue};
ghost use Rattle.std.specs.List.{All, list_all};
ghost use Rattle.pi_model.specs.Uses.{method_below};
ghost use Rattle.pi_contents.specs.Named.{text_in};
ghost use Rattle.pi_classtables.specs.Numbers.{Pools};
ghost use Rattle.pi_classtables.specs.Spelled.{MethodSpelled};
ghost use Rattle.pi_classtables.specs.Whole.{method_row};
ghost use Rattle.pi_dexdata.specs.Numbers.{no_text};
ghost use Rattle.pi_dexrows.specs.Rows.{method_lists, method_numbers, methods_of, with_row};

use crate::methods::{behind_method, method_row};
use crate::names::is_direct;
use pi_dextables::tables::MethodRow;
use pi_model::describe::MethodDesc;
use pi_model::listed::Listed;
use pi_model::prog::Prog;
use std::alloc::{AllocError, Global};

/// The direct methods of a class, and its other methods.
#[derive(Debug, Drop)]
pub(crate) struct MethodLists {
    pub directs: Listed<MethodRow>,
    pub virtuals: Listed<MethodRow>,
}

/// Puts a row behind those of its kind.
fn add_row(lists: &mut MethodLists, row: MethodRow, direct: bool) -> Result<(), AllocError>
    ensures { OnOk result (lists.new ≡ with_row direct row lists.old) }
{
    if direct {
        lists.directs.push(row)
    } else {
        lists.virtuals.push(row)
    }
}

/// The addresses for a method, none where the list does not reach it.
fn sparse_at(sparse: &[Listed<u32>], place: usize) -> &[u32]
    ensures { result.now ≡ slice_index_or sparse.now place [] }
{
    match sparse.get(place) {
        Some(listed) => listed.as_slice(),
        None => &[],
    }
}

/// Methods as rows, by the numbers of what they name; None where one has an instruction with no form that fits.
pub(crate) fn rows_of(
    alloc: Global,
    prog: &Prog,
    methods: &[MethodDesc],
    sparse: &[Listed<u32>],
    numbers: &[u32],
) -> Result<Option<MethodLists>, AllocError>
    requires below { IsTrue (list_all (method_below (length prog.now.names)) methods.now) }
    requires spelled { All MethodSpelled (methods_of no_text methods.now sparse.now) }
    ensures { IfOk result (λ lists. (p : Pools) (class : List ℕ) → length p.types ≤ 65535
        → numbers.now ≡ method_numbers p (text_in prog.now) class methods.now
        → lists ≡ method_lists (method_row p class) (methods_of (text_in prog.now) methods.now sparse.now)) }
{
    let mut lists = MethodLists {
        directs: Listed::new(alloc),
        virtuals: Listed::new(alloc),
    };
    let mut left = numbers;
    for (place, method) in methods.iter().enumerate() {
        let Some(row) = method_row(alloc, method, sparse_at(sparse, place), left)? else {
            return Ok(None);
        };
        add_row(&mut lists, row, is_direct(prog, method))?;
        left = behind_method(method, left);
    }
    Ok(Some(lists))
}
