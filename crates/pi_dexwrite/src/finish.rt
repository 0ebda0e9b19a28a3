// The file of the classes that are held.

ghost use Rattle.std.specs.Prelude.{◌≡◌, ◌≤◌, ℕ, List, length, Some, None, IfOk, IfErr, OnOk, IsTrue, ◌↔◌};
ghost use Rattle.pi_dextables.specs.Said.{HasForm};
ghost use Rattle.pi_dextables.specs.Writable.{IsWritable};
ghost use Rattle.pi_classlaws.specs.Written.{KeepsRules, SaysAgain};
ghost use Rattle.pi_classtables.specs.Whole.{tables_of};
ghost use Rattle.pi_dexpools.specs.Ranked.{AreWhole};
ghost use Rattle.pi_dexwrite.specs.declared.fault.BuildError.TheVariants.{Full};
ghost use Rattle.pi_dexwrite.specs.Built.{IsFileOf, TheyFit};
ghost use Rattle.pi_dexwrite.specs.Held.{all_added, AreHeld};
ghost use Rattle.pi_dexwrite.specs.Ready.{AreCounted, AreNumbered};

use crate::fault::BuildError;
use crate::part::Part;
use crate::rows::rows_of;
use pi_classlaws::{classes_are_said, classes_are_written};
use pi_dexlay::{LayError, write};
use pi_dexnumbers::{Numbered, number_tables};
use pi_dexpools::Pools;
use pi_dexsizes::halves;
use pi_dextables::tables::Tables;
use pi_poollaws::{named_are_gathered, places_are_numbered};
use std::alloc::{AllocError, Global};

/// The most strings, fields and methods that 32 bits count.
const MOST: usize = u32::MAX as usize;

/// Whether strings, fields and methods are counted by 32 bits.
fn are_counted(numbered: &Numbered) -> bool
    ensures { IsTrue result ↔ AreCounted numbered.now }
{
    numbered.strings.len() <= MOST
        && numbered.fields.len() <= MOST
        && numbered.methods.len() <= MOST
}

/// The first tables of a file, and the number of each thing in them.
fn number(alloc: Global, pools: Pools) -> Result<Numbered, AllocError>
    requires whole { AreWhole pools }
    requires types { length pools.types ≤ 65535 }
    requires protos { length pools.protos ≤ 65535 }
    ensures { IfOk result (AreNumbered pools) }
{
    let all = pools.into_gathered(alloc)?;
    let numbered = number_tables(alloc, all)?;
    halves(numbered.strings.as_slice());
    if !are_counted(&numbered) {
        return Err(AllocError);
    }
    Ok(numbered)
}

/// The tables of the classes.
fn tables_for(alloc: Global, parts: &[Part<'_>], pools: Pools) -> Result<Tables, BuildError>
    requires { AreHeld parts.now pools }
    ensures made { IfOk result (λ t. tables_of (all_added parts.now) ≡ Some t) }
    ensures writable { IfOk result IsWritable }
    ensures full { IfErr result (λ e. e ≡ Full → tables_of (all_added parts.now) ≡ None) }
{
    named_are_gathered();
    places_are_numbered();
    classes_are_said();
    let numbered = number(alloc, pools)?;
    let classes = match rows_of(alloc, parts, &numbered.ranks) {
        Ok(classes) => classes,
        Err(fault) => return Err(fault),
    };
    Ok(Tables {
        strings: numbered.strings,
        types: numbered.types,
        protos: numbered.protos,
        fields: numbered.fields,
        methods: numbered.methods,
        classes,
    })
}

/// The bytes of a file that says the classes.
pub(crate) fn file_of(
    alloc: Global,
    parts: &[Part<'_>],
    pools: Pools,
) -> Result<Vec<u8>, BuildError>
    requires { AreHeld parts.now pools }
    ensures bytes { IfOk result (λ file. IsFileOf (all_added parts.now) file.items) }
    ensures form { IfOk result (λ file. HasForm file.items) }
    ensures kept { IfOk result (λ file. KeepsRules (all_added parts.now) file.items) }
    ensures said { IfOk result (λ file. SaysAgain (all_added parts.now) file.items) }
    ensures fits { OnOk result (TheyFit (all_added parts.now)) }
    ensures full { IfErr result (λ e. e ≡ Full → TheyFit (all_added parts.now) → ⊥) }
{
    classes_are_written();
    let tables = match tables_for(alloc, parts, pools) {
        Ok(tables) => tables,
        Err(fault) => return Err(fault),
    };
    let file = match write(alloc, &tables) {
        Ok(file) => file,
        Err(LayError::OutOfMemory) => return Err(BuildError::OutOfMemory),
        Err(LayError::TooLong | LayError::HandlerOffset) => return Err(BuildError::Full),
    };
    Ok(file)
}
