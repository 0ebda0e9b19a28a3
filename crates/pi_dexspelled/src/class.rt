// A class.

ghost use Rattle.std.specs.Prelude.{◌≡◌, ◌↔◌, ◌&&◌, ℕ, List, not, map, IfOk, IsTrue};
ghost use Rattle.std.specs.List.{list_all};
ghost use Rattle.pi_model.specs.declared.numbers.NameNo.{NameNo};
ghost use Rattle.pi_contents.specs.Asked.{has_init};
ghost use Rattle.pi_contents.specs.Named.{class_content, field_content, init_content};
ghost use Rattle.pi_classtables.specs.Spelled.{init_spelled, field_spelled, IsSpelled};
ghost use Rattle.pi_dexdata.specs.Numbers.{no_text};
ghost use Rattle.pi_dexspelled.specs.Tests.{class_spelled};

use crate::codes::are_methods_laid;
use pi_dexsizes::whatever_the_names;
use pi_model::describe::{ClassDesc, FieldDesc, Init};
use pi_model::listed::Listed;
use std::alloc::{AllocError, Global};

/// The bit that static members have.
const STATIC: u32 = 0x8;

/// Whether a field that is set so is set to something other than 0.
fn is_init_spelled(init: Init) -> bool
    ensures { result ≡ init_spelled (init_content no_text init) }
{
    match init {
        Init::Zero | Init::Str(_) | Init::Cls(_) => true,
        Init::Word(word) => word > 0,
        Init::Long(long) => long > 0,
    }
}

/// Whether a field is set.
fn has_init(init: Init) -> bool
    ensures { result ≡ has_init (init_content no_text init) }
{
    match init {
        Init::Zero => false,
        Init::Word(_) | Init::Long(_) | Init::Str(_) | Init::Cls(_) => true,
    }
}

/// Whether a file can say how a field is set.
fn is_field_spelled(field: &FieldDesc) -> bool
    ensures { result ≡ field_spelled (field_content no_text field.now) }
{
    let is_static = field.flags & STATIC == STATIC;
    is_init_spelled(field.init) && (is_static || !has_init(field.init))
}

/// The same of each field.
fn are_fields_spelled(fields: &[FieldDesc]) -> bool
    ensures { result ≡ list_all (λ f. field_spelled (field_content no_text f)) fields.now }
{
    fields.iter().all(|field| is_field_spelled(field))
}

/// Whether a class passes the test.
#[tactic(auto, using(crate::proofs::Spelled::each_field))]
fn passes(alloc: Global, class: &ClassDesc, sparse: &[Listed<u32>]) -> Result<bool, AllocError>
    ensures { IfOk result (λ b. b ≡ class_spelled (record { class = class_content no_text class.now; sparse = sparse.now })) }
{
    if !are_fields_spelled(class.fields.as_slice()) {
        return Ok(false);
    }
    are_methods_laid(alloc, class.methods.as_slice(), sparse)
}

/// Whether a file can say a class; `sparse` are for each of its methods, in order, the addresses of the switches that are to be
/// written with all their keys even where these follow each other. It is tried out: instructions and payloads are made one by
/// one, and dropped.
pub fn is_spelled(
    alloc: Global,
    class: &ClassDesc,
    sparse: &[Listed<u32>],
) -> Result<bool, AllocError>
    ensures { IfOk result (λ b. (text : NameNo → List ℕ) → IsTrue b ↔ IsSpelled (record { class = class_content text class.now; sparse = sparse.now })) }
{
    whatever_the_names();
    passes(alloc, class, sparse)
}
