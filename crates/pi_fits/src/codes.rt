// Whether the names that codes use are among the first so many.

ghost use Rattle.std.specs.Prelude.{◌≡◌};
ghost use Rattle.std.specs.List.{list_all};
ghost use Rattle.pi_model.specs.Uses.{insn_below, line_below, catch_below, code_below};

use crate::uses::{is_field_ref_below, is_method_ref_below, is_name_below, is_optional_below};
use pi_model::describe::{Catch, Code, Line};
use pi_model::insn::Insn;

/// An instruction.
fn is_insn_below(count: u32, insn: &Insn) -> bool
    ensures { result ≡ insn_below count insn.now }
{
    match *insn {
        Insn::ConstString { s, .. } => is_name_below(count, s),
        Insn::ConstClass { t, .. } => is_name_below(count, t),
        Insn::CheckCast { t, .. } => is_name_below(count, t),
        Insn::InstanceOf { t, .. } => is_name_below(count, t),
        Insn::NewInstance { t, .. } => is_name_below(count, t),
        Insn::NewArray { t, .. } => is_name_below(count, t),
        Insn::Filled { t, .. } => is_name_below(count, t),
        Insn::Iget { ref f, .. } => is_field_ref_below(count, f),
        Insn::Iput { ref f, .. } => is_field_ref_below(count, f),
        Insn::Sget { ref f, .. } => is_field_ref_below(count, f),
        Insn::Sput { ref f, .. } => is_field_ref_below(count, f),
        Insn::Invoke { ref m, .. } => is_method_ref_below(count, m),
        _ => true,
    }
}

/// Instructions.
fn are_lines_below(count: u32, lines: &[Line]) -> bool
    ensures { result ≡ list_all (line_below count) lines.now }
{
    lines.iter().all(|line| is_insn_below(count, &line.insn))
}

/// Handlers.
fn are_catches_below(count: u32, catches: &[Catch]) -> bool
    ensures { result ≡ list_all (catch_below count) catches.now }
{
    catches
        .iter()
        .all(|catch| is_optional_below(count, catch.ty))
}

/// A code, where there is one.
pub(crate) fn is_code_below(count: u32, code: &Option<Code>) -> bool
    ensures { result ≡ code_below count code.now }
{
    match code {
        Some(code) => {
            are_lines_below(count, code.insns.as_slice())
                && are_catches_below(count, code.tries.as_slice())
        }
        None => true,
    }
}
