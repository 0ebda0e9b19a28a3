// A method of a class as a row.

ghost use Rattle.std.specs.Prelude.{◌≡◌, ◌≤◌, ◌++◌, ℕ, List, length, map, option_map, count_by, is_some, IfOk, IfSome};
ghost use Rattle.pi_model.specs.declared.describe.Catch.{Catch as Handler};
ghost use Rattle.pi_model.specs.declared.numbers.NameNo.{NameNo};
ghost use Rattle.pi_contents.specs.Named.{code_content, method_content};
ghost use Rattle.pi_contents.specs.Naming.{named_by_code, named_by_method};
ghost use Rattle.pi_classtables.specs.Numbers.{Pools, index_of};
ghost use Rattle.pi_classtables.specs.Spelled.{IsLaid, MethodSpelled};
ghost use Rattle.pi_classtables.specs.Whole.{method_row, optional_body};
ghost use Rattle.pi_dexdata.specs.Numbers.{no_text};
ghost use Rattle.pi_dexrows.specs.Taken.{behind_method, code_names, optional_names};

use crate::numbers::{back, behind, first, front};
use pi_dexcodes::body;
use pi_dextables::tables::{Body, MethodRow};
use pi_model::describe::{Catch, Code, MethodDesc};
use std::alloc::{AllocError, Global};

/// How many handlers catch a type.
fn typed_handlers(tries: &[Catch]) -> usize
    ensures value { result ≡ count_by (λ (t : Handler). is_some t.ty) tries.now }
    ensures within { result ≤ length tries.now }
{
    tries.iter().filter(|handler| handler.ty.is_some()).count()
}

/// How many numbers a code has.
fn code_names(code: &Code) -> usize
    ensures { result ≡ code_names code.now }
{
    code.insns.as_slice().len() + typed_handlers(code.tries.as_slice())
}

/// How many numbers a code has, where there is one.
fn optional_names(code: &Option<Code>) -> usize
    ensures { result ≡ optional_names code.now }
{
    match code {
        Some(code) => code_names(code),
        None => 0,
    }
}

/// The numbers behind those of a method.
pub(crate) fn behind_method<'a>(method: &MethodDesc, numbers: &'a [u32]) -> &'a [u32]
    ensures { result.now ≡ behind_method method.now numbers.now }
{
    back(behind(numbers), optional_names(&method.code))
}

/// A code, where there is one, by the numbers of what it names, which stand first.
fn optional_body(
    alloc: Global,
    code: &Option<Code>,
    sparse: &[u32],
    numbers: &[u32],
) -> Result<Option<Option<Body>>, AllocError>
    requires { IfSome (option_map (code_content no_text) code.now) (IsLaid sparse.now) }
    ensures { IfOk result (λ made. (p : Pools) (text : NameNo → List ℕ) (rest : List ℕ) → length p.types ≤ 65535
        → numbers.now ≡ map (index_of p) (named_by_code (option_map (code_content text) code.now)) ++ rest
        → made ≡ optional_body p sparse.now (option_map (code_content text) code.now)) }
{
    let Some(code) = code else {
        return Ok(Some(None));
    };
    let own = front(numbers, code_names(code));
    match body(alloc, code, sparse, own)? {
        Some(made) => Ok(Some(Some(made))),
        None => Ok(None),
    }
}

/// A method as a row, by the numbers of what it names, which stand first.
pub(crate) fn method_row(
    alloc: Global,
    method: &MethodDesc,
    sparse: &[u32],
    numbers: &[u32],
) -> Result<Option<MethodRow>, AllocError>
    requires { MethodSpelled (record { content = method_content no_text method.now; sparse = sparse.now }) }
    ensures { IfOk result (λ row. (p : Pools) (text : NameNo → List ℕ) (class rest : List ℕ) → length p.types ≤ 65535
        → numbers.now ≡ map (index_of p) (named_by_method class (method_content text method.now)) ++ rest
        → row ≡ method_row p class (record { content = method_content text method.now; sparse = sparse.now })) }
{
    let Some(code) = optional_body(alloc, &method.code, sparse, behind(numbers))? else {
        return Ok(None);
    };
    Ok(Some(MethodRow {
        id: first(numbers),
        flags: method.flags,
        code,
    }))
}
