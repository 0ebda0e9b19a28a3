// The class itself in its row: its type, its superclass and its interfaces.

ghost use Rattle.std.specs.Prelude.{◌≡◌, IfOk};
ghost use Rattle.pi_dexrows.specs.Heads.{behind_head, behind_parent, head_of, parent_no};

use crate::numbers::{back, behind, first, front, half, halves};
use pi_model::describe::ClassDesc;
use pi_model::listed::Units;
use pi_model::numbers::NameNo;
use std::alloc::{AllocError, Global};

/// The types of a class, of its superclass and of its interfaces.
#[derive(Debug, Drop)]
pub(crate) struct Head {
    pub class: u16,
    pub parent: Option<u16>,
    pub faces: Units,
}

/// The number of a superclass, where there is one.
fn parent_of(parent: Option<NameNo>, numbers: &[u32]) -> Result<Option<u16>, AllocError>
    ensures { IfOk result (λ number. number ≡ parent_no parent numbers.now) }
{
    match parent {
        Some(_) => {
            let number = half(first(numbers))?;
            Ok(Some(number))
        }
        None => Ok(None),
    }
}

/// The numbers behind that of a superclass.
fn behind_parent(parent: Option<NameNo>, numbers: &[u32]) -> &[u32]
    ensures { result.now ≡ behind_parent parent numbers.now }
{
    match parent {
        Some(_) => behind(numbers),
        None => numbers,
    }
}

/// The types of a class, by the numbers of what it names.
pub(crate) fn head_of(alloc: Global, class: &ClassDesc, numbers: &[u32]) -> Result<Head, AllocError>
    ensures { IfOk result (λ head. head ≡ head_of class.now numbers.now) }
{
    let rest = behind(numbers);
    let own = half(first(numbers))?;
    let parent = parent_of(class.parent, rest)?;
    let faces = halves(
        alloc,
        front(behind_parent(class.parent, rest), class.faces.len()),
    )?;
    Ok(Head {
        class: own,
        parent,
        faces,
    })
}

/// The numbers behind those of the types of a class.
pub(crate) fn behind_head<'a>(class: &ClassDesc, numbers: &'a [u32]) -> &'a [u32]
    ensures { result.now ≡ behind_head class.now numbers.now }
{
    back(
        behind_parent(class.parent, behind(numbers)),
        class.faces.len(),
    )
}
