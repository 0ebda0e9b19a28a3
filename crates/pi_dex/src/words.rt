// The argument words of methods.

ghost use Rattle.std.specs.Prelude.{◌≡◌, ◌+◌, ◌<◌, ◌≤◌, sum_by, None, IfOk, if◌then◌else◌};
ghost use Rattle.std.specs.List.{All};
ghost use Rattle.pi_format.specs.Tables.{count_at, type_ids, proto_ids};
ghost use Rattle.pi_format.specs.Rules.{broken_tables_rule};
ghost use Rattle.pi_format.specs.Rules.Descriptors.{words_of_type};
ghost use Rattle.pi_format.specs.Rules.Entries.{list_at};
ghost use Rattle.pi_model.specs.Flags.{is_static};
ghost use Rattle.pi_format.specs.Rules.Members.{proto_entry};
ghost use Rattle.pi_format.specs.Rules.Strings.{type_units};
ghost use Rattle.pi_format.specs.Rules.ClassData.{method_proto};
ghost use Rattle.pi_format.specs.Rules.CodeItems.{argument_words};
ghost use Rattle.pi_dex.specs.Judged.{IsMethod};

use pi_classdata::{AccessFlags, MemberRow};
use pi_dexraw::Raw;
use std::alloc::{AllocError, Global};

/// The argument words of a type.
fn words_of(raw: &Raw<'_>, t: u16) -> u32
    requires { t < count_at raw.now type_ids }
    ensures { result ≡ words_of_type (type_units raw.now t) }
{
    if raw.begins_with(b'J', t as u32) {
        2
    } else {
        1
    }
}

/// The argument words of all parameters.
#[tactic(auto, using(crate::proofs::Sums::sum_goes, crate::proofs::Sums::sum_ends))]
fn param_words(raw: &Raw<'_>, params: &[u16]) -> u32
    requires there { All (λ t. t < count_at raw.now type_ids) params.now }
    requires few { sum_by (λ t. words_of_type (type_units raw.now t)) params.now ≤ 255 }
    ensures { result ≡ sum_by (λ t. words_of_type (type_units raw.now t)) params.now }
{
    let mut words = 0;
    for i in 0..params.len() {
        words += words_of(raw, params[i]);
    }
    words
}

/// The argument words of the parameters of a prototype.
fn proto_words(alloc: Global, raw: &Raw<'_>, proto: u32) -> Result<u32, AllocError>
    requires kept { broken_tables_rule raw.now ≡ None }
    requires there { proto < count_at raw.now proto_ids }
    ensures words { IfOk result (λ n. n ≡ sum_by (λ t. words_of_type (type_units raw.now t)) (list_at raw.now (proto_entry raw.now proto).params)) }
    ensures few { IfOk result (λ n. n ≤ 255) }
{
    let params = raw.params(alloc, proto)?;
    Ok(param_words(raw, params.as_slice()))
}

/// The argument words of the receiver, none where a method is static.
fn receiver_words(flags: u32) -> u32
    ensures words { result ≡ (if is_static flags then 0 else 1) }
    ensures few { result ≤ 1 }
{
    if AccessFlags(flags).is_static() { 0 } else { 1 }
}

/// The prototype of a method.
fn proto_of(raw: &Raw<'_>, row: &MemberRow) -> u32
    requires { IsMethod raw.now row.now }
    ensures value { result ≡ method_proto raw.now row.now.id }
    ensures there { result < count_at raw.now proto_ids }
{
    raw.method_entry(row.id).kind
}

/// The argument words of a method, with one for the receiver where it is not static.
pub(crate) fn argument_words(
    alloc: Global,
    raw: &Raw<'_>,
    row: &MemberRow,
) -> Result<u32, AllocError>
    requires kept { broken_tables_rule raw.now ≡ None }
    requires there { IsMethod raw.now row.now }
    ensures { IfOk result (λ words. words ≡ argument_words raw.now row.now) }
{
    let words = proto_words(alloc, raw, proto_of(raw, row))?;
    Ok(receiver_words(row.flags) + words)
}
