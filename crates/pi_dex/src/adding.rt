// The file behind the chain.

ghost use Rattle.std.specs.Prelude.{◌≡◌, ◌<◌, ◌≤◌, length, None, IfOk, OnOk, OnErr};
ghost use Rattle.pi_bytes.specs.Numbers.{most_bytes};
ghost use Rattle.pi_format.specs.Tables.{count_at, class_defs};
ghost use Rattle.pi_format.specs.Rules.{broken_content_rule, broken_rule};
ghost use Rattle.pi_format.specs.Rules.Lowest.{tabulation};
ghost use Rattle.pi_format.specs.Rules.ClassData.{broken_class_data, rows_of};
ghost use Rattle.pi_format.specs.Says.{HasRoom, SaysNext};
ghost use Rattle.pi_dexraw.specs.Asked.{Tells};
ghost use Rattle.pi_dex.specs.Shared.{AreCodes};

use crate::asking::ask;
use crate::classes::{classes, types};
use crate::code_rules::code_rule;
use crate::members::are_bytes;
use crate::offsets::code_offsets;
use crate::walk_rules::walk_rules;
use crate::weight::weigh;
use pi_classdata::{RowTable, read_rows, rows_are_members, values_rule};
use pi_dexcode::{Named, Numbered, number};
use pi_dexraw::{DexFault, Raw};
use pi_model::prog::Prog;
use pi_said::{said_fits, said_has_room};
use std::alloc::{AllocError, Global};

/// Rules X18 to X23, of a file whose members were read. The answer is the code items of its methods.
#[tactic(auto, unfolding(pi_format::specs::Rules::broken_content_rule))]
fn ask_content(
    alloc: Global,
    raw: &Raw<'_>,
    table: &RowTable,
    broken: Option<u32>,
) -> Result<Vec<u32>, DexFault>
    requires table { table.now ≡ tabulation (rows_of raw.now) 0 (count_at raw.now class_defs) }
    requires broken { broken ≡ broken_class_data raw.now }
    ensures told { Tells (broken_content_rule raw.now) result }
    ensures codes { IfOk result (λ list. AreCodes raw.now list.items) }
{
    ask(18, broken)?;
    ask(19, values_rule(alloc, raw, table)?)?;
    let codes = code_offsets(alloc, raw, table)?;
    ask(20, code_rule(alloc, raw, table, codes.as_slice())?)?;
    let faults = walk_rules(alloc, raw, codes.as_slice())?;
    ask(21, faults.walk)?;
    ask(22, faults.index)?;
    ask(23, faults.payload)?;
    Ok(codes)
}

/// Adds what a file says, of which the rules X18 to X23 hold.
fn add(alloc: Global, prog: &mut Prog, raw: &Raw<'_>, table: &RowTable) -> Result<(), AllocError>
    requires files { length prog.old.files < 8 }
    requires room { HasRoom prog.old }
    requires kept { broken_content_rule raw.now ≡ None }
    requires table { table.now ≡ tabulation (rows_of raw.now) 0 (count_at raw.now class_defs) }
    ensures said { OnOk result (SaysNext prog.old raw.now prog.new) }
    ensures room { OnOk result (HasRoom prog.new) }
    ensures same { OnErr result (prog.new ≡ prog.old) }
{
    prog.keeps();
    said_fits();
    said_has_room();
    rows_are_members();
    are_bytes(raw.file());
    let Numbered { new, numbers } = number(alloc, prog, raw)?;
    let names = Named::new(raw, numbers.as_slice());
    let types = types(alloc, &names)?;
    let classes = classes(alloc, &names, prog.files(), table)?;
    prog.add_file(new, types, classes)
}

/// Tests the rules X18 to X23 on a file of which the others hold, and adds what it says.
fn append_raw(alloc: Global, prog: &mut Prog, raw: &Raw<'_>) -> Result<(), DexFault>
    requires files { length prog.old.files < 8 }
    requires room { HasRoom prog.old }
    ensures told { Tells (broken_content_rule raw.now) result }
    ensures said { OnOk result (SaysNext prog.old raw.now prog.new) }
    ensures room { OnOk result (HasRoom prog.new) }
    ensures same { OnErr result (prog.new ≡ prog.old) }
{
    let (broken, table) = read_rows(alloc, raw)?;
    let codes = ask_content(alloc, raw, &table, broken)?;
    // what many share can be far more than the file: nothing is made of it before it is known to be little
    weigh(alloc, raw, &table, codes.as_slice())?;
    add(alloc, prog, raw, &table)?;
    Ok(())
}

/// Tests the rules X1 to X23 on the bytes of a file, and adds what the file says behind a chain of fewer than eight files.
///
/// Rule names the broken rule with the lowest number, at its lowest place.
#[tactic(auto, using(crate::proofs::Told::tables_told, crate::proofs::Told::raw_told))]
pub fn append(alloc: Global, prog: &mut Prog, bytes: &[u8]) -> Result<(), DexFault>
    requires files { length prog.old.files < 8 }
    requires room { HasRoom prog.old }
    requires small { length bytes.now ≤ most_bytes }
    ensures told { Tells (broken_rule bytes.now) result }
    ensures said { OnOk result (SaysNext prog.old bytes.now prog.new) }
    ensures room { OnOk result (HasRoom prog.new) }
    ensures same { OnErr result (prog.new ≡ prog.old) }
{
    match Raw::new(alloc, bytes) {
        Ok(raw) => append_raw(alloc, prog, &raw),
        Err(fault) => Err(fault),
    }
}
