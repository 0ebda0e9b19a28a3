// The row of a class of a program.

ghost use Rattle.std.specs.Prelude.{◌≡◌, ◌≤◌, ℕ, List, length, map, option_map, IfOk, IsTrue};
ghost use Rattle.std.specs.List.{All, Contains, list_all};
ghost use Rattle.pi_model.specs.Uses.{class_below, method_below};
ghost use Rattle.pi_contents.specs.Named.{class_content, content_in, text_in};
ghost use Rattle.pi_contents.specs.Naming.{named_by_class};
ghost use Rattle.pi_classtables.specs.Numbers.{Pools, index_of};
ghost use Rattle.pi_classtables.specs.Spelled.{IsSpelled, MethodSpelled};
ghost use Rattle.pi_classtables.specs.Whole.{Added, class_row, is_counted, method_row, pools_for};
ghost use Rattle.pi_dexdata.specs.Numbers.{no_text};
ghost use Rattle.pi_dexrows.specs.Heads.{row_of};
ghost use Rattle.pi_dexrows.specs.Rows.{arranged_lists, method_lists, method_numbers, methods_of};

use crate::field_lists::{FieldLists, field_lists};
use crate::fields::behind_fields;
use crate::head::{Head, behind_head, head_of};
use crate::order::arrange_lists;
use crate::rows::{MethodLists, rows_of};
use pi_dextables::tables::Class;
use pi_model::describe::{ClassDesc, MethodDesc};
use pi_model::listed::Listed;
use pi_model::prog::Prog;
use std::alloc::{AllocError, Global};

/// The lists of the methods of a class, by the numbers of what they name; None where one has an instruction with no form that
/// fits.
fn method_lists(
    alloc: Global,
    prog: &Prog,
    methods: &[MethodDesc],
    sparse: &[Listed<u32>],
    numbers: &[u32],
) -> Result<Option<MethodLists>, AllocError>
    requires below { IsTrue (list_all (method_below (length prog.now.names)) methods.now) }
    requires spelled { All MethodSpelled (methods_of no_text methods.now sparse.now) }
    ensures { IfOk result (λ lists. (p : Pools) (class : List ℕ) → length p.types ≤ 65535
        → numbers.now ≡ method_numbers p (text_in prog.now) class methods.now
        → lists ≡ option_map arranged_lists (method_lists (method_row p class) (methods_of (text_in prog.now) methods.now sparse.now))) }
{
    let Some(lists) = rows_of(alloc, prog, methods, sparse, numbers)? else {
        return Ok(None);
    };
    let sorted = arrange_lists(lists)?;
    Ok(Some(sorted))
}

/// The row that these make.
fn row_of(flags: u32, head: Head, fields: FieldLists, methods: MethodLists) -> Class
    ensures { result ≡ row_of flags head fields methods }
{
    Class {
        class: head.class,
        flags,
        parent: head.parent,
        faces: head.faces,
        values: fields.values,
        statics: fields.statics,
        instances: fields.instances,
        directs: methods.directs,
        virtuals: methods.virtuals,
    }
}

/// A class of a program as the tables of a file have it, by the numbers of what it names, in order; `sparse` are for each method
/// the addresses of switches whose payload is sparse, whatever their keys. None where an instruction has no form of its length
/// that these numbers fit.
pub fn class_row(
    alloc: Global,
    prog: &Prog,
    class: &ClassDesc,
    sparse: &[Listed<u32>],
    numbers: &[u32],
) -> Result<Option<Class>, AllocError>
    requires below { IsTrue (class_below (length prog.now.names) class.now) }
    requires spelled { IsSpelled (record { class = class_content no_text class.now; sparse = sparse.now }) }
    ensures { IfOk result (λ row. (es : List Added)
        → Contains es (record { class = content_in prog.now class.now; sparse = sparse.now })
        → IsTrue (is_counted (pools_for es))
        → numbers.now ≡ map (index_of (pools_for es)) (named_by_class (content_in prog.now class.now))
        → row ≡ class_row (pools_for es) (record { class = content_in prog.now class.now; sparse = sparse.now })) }
{
    let head = head_of(alloc, class, numbers)?;
    let members = behind_head(class, numbers);
    let fields = field_lists(alloc, prog, class.fields.as_slice(), members)?;
    let left = behind_fields(class.fields.as_slice(), members);
    let Some(methods) = method_lists(alloc, prog, class.methods.as_slice(), sparse, left)? else {
        return Ok(None);
    };
    Ok(Some(row_of(class.flags, head, fields, methods)))
}
