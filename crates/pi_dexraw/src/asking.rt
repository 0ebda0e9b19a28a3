// The rules X1 to X17 one after the other. docs/dex-format.md states the order.

ghost use Rattle.std.specs.Prelude.{◌≡◌, ◌≤◌, None, length, IfOk, OnOk};
ghost use Rattle.pi_bytes.specs.Numbers.{most_bytes};
ghost use Rattle.pi_format.specs.Rules.{broken_or, broken_tables_rule};
ghost use Rattle.pi_format.specs.Rules.Strings.{broken_strings, broken_types};
ghost use Rattle.pi_format.specs.Tables.{count_at, string_ids};
ghost use Rattle.pi_dexids.specs.Facts.{AreFacts};
ghost use Rattle.pi_dexids.specs.Tables.{HasTables};
ghost use Rattle.pi_dexids.specs.Tails.{AreTails};
ghost use Rattle.pi_dexraw.specs.Whole.{known_of};
ghost use Rattle.pi_dexraw.specs.Asked.{Asks, Tells, header_rules, sum_rules, string_rules, id_rules, class_rules};

use crate::classes::classes_rule;
use crate::fault::DexFault;
use crate::header::{
    checksum_rule, data_rule, file_size_rule, header_size_rule, length_rule, magic_rule,
    order_rule, signature_rule, tables_rule,
};
use crate::known::{Known, known_texts};
use crate::map::map_rule;
use crate::members::{fields_rule, methods_rule};
use crate::protos::protos_rule;
use pi_dexids::strings::{string_order_rule, types_rule};
use pi_dexids::tail::Tail;
use pi_dexids::tails::tails;
use pi_dexids::types::Types;
use std::alloc::Global;

/// Tells a rule that is broken.
fn ask(rule: u8, broken: Option<u32>) -> Result<(), DexFault>
    ensures asks { Asks (broken_or rule broken) result }
    ensures holds { OnOk result (broken ≡ None) }
{
    match broken {
        None => Ok(()),
        Some(at) => Err(DexFault::Rule { rule, at }),
    }
}

/// Rules X1 to X5.
#[tactic(auto, using(crate::proofs::Chain::is_long), unfolding(crate::specs::Asked::header_rules))]
fn ask_header(file: &[u8]) -> Result<(), DexFault>
    requires { length file.now ≤ most_bytes }
    ensures asks { Asks (header_rules file.now) result }
    ensures long { OnOk result (112 ≤ length file.now) }
{
    ask(1, length_rule(file))?;
    ask(2, magic_rule(file))?;
    ask(3, order_rule(file))?;
    ask(4, header_size_rule(file))?;
    ask(5, file_size_rule(file))
}

/// Rules X6 to X9.
#[tactic(auto, using(crate::proofs::Chain::have_tables), unfolding(crate::specs::Asked::sum_rules))]
fn ask_sums(file: &[u8]) -> Result<(), DexFault>
    requires small { length file.now ≤ most_bytes }
    requires long { 112 ≤ length file.now }
    ensures asks { Asks (sum_rules file.now) result }
    ensures tables { OnOk result (HasTables file.now) }
{
    ask(6, checksum_rule(file))?;
    ask(7, signature_rule(file))?;
    ask(8, tables_rule(file))?;
    ask(9, data_rule(file))
}

/// Rules X10 to X13, and what is known of the strings.
#[tactic(auto, unfolding(crate::specs::Asked::string_rules))]
fn ask_strings(alloc: Global, file: &[u8]) -> Result<Vec<Tail>, DexFault>
    requires { HasTables file.now }
    ensures asks { Asks (string_rules file.now) result }
    ensures strings { OnOk result (broken_strings file.now ≡ None) }
    ensures types { OnOk result (broken_types file.now ≡ None) }
    ensures tails { IfOk result (λ list. AreTails file.now list.items) }
{
    ask(10, map_rule(alloc, file)?)?;
    let tails = match tails(alloc, file)? {
        Ok(tails) => tails,
        Err(at) => return Err(DexFault::Rule { rule: 11, at }),
    };
    ask(12, string_order_rule(alloc, file)?)?;
    ask(13, types_rule(file, tails.as_slice()))?;
    Ok(tails)
}

/// Rules X14 and X15.
#[tactic(auto, unfolding(crate::specs::Asked::id_rules))]
fn ask_ids(alloc: Global, types: &Types<'_>, tails: &[Tail]) -> Result<(), DexFault>
    requires { AreTails types.now tails.now }
    ensures { Asks (id_rules types.now) result }
{
    ask(14, protos_rule(alloc, types)?)?;
    ask(15, fields_rule(types, tails))
}

/// Rules X16 and X17.
#[tactic(auto, unfolding(crate::specs::Asked::class_rules))]
fn ask_classes(alloc: Global, types: &Types<'_>, tails: &[Tail]) -> Result<(), DexFault>
    requires { AreTails types.now tails.now }
    ensures { Asks (class_rules types.now) result }
{
    ask(16, methods_rule(alloc, types, tails)?)?;
    ask(17, classes_rule(alloc, types)?)
}

/// All rules on a file whose length fits; and its types, and which of the known texts its strings are.
#[tactic(auto, using(crate::proofs::Chain::all_rules))]
pub(crate) fn ask_all<'a>(
    alloc: Global,
    file: &'a [u8],
) -> Result<(Types<'a>, Vec<Known>), DexFault>
    requires { length file.now ≤ most_bytes }
    ensures told { Tells (broken_tables_rule file.now) result }
    ensures types { IfOk result (λ r. r.0 ≡ file.now) }
    ensures known { IfOk result (λ r. AreFacts (known_of file.now) (count_at file.now string_ids) r.1.items) }
{
    ask_header(file)?;
    ask_sums(file)?;
    let tails = ask_strings(alloc, file)?;
    let types = Types::new(alloc, file, tails.as_slice())?;
    ask_ids(alloc, &types, tails.as_slice())?;
    ask_classes(alloc, &types, tails.as_slice())?;
    let known = known_texts(alloc, file, tails.as_slice())?;
    Ok((types, known))
}
