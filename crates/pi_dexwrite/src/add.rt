// Adding a class, with what it names.

ghost use Rattle.std.specs.Prelude.{◌≡◌, ◌∷◌, ◌++◌, [], length, false, IfOk, IfErr, OnOk, OnErr, IsTrue};
ghost use Rattle.pi_model.specs.Uses.{class_below};
ghost use Rattle.pi_contents.specs.Named.{content_in};
ghost use Rattle.pi_contents.specs.Naming.{named_by_class};
ghost use Rattle.pi_classtables.specs.Spelled.{IsSpelled};
ghost use Rattle.pi_classtables.specs.Whole.{is_counted, pools_for};
ghost use Rattle.pi_dexpools.specs.Gathered.{counts_of, gathered, places_of};
ghost use Rattle.pi_dexwrite.specs.declared.fault.BuildError.TheVariants.{Full};
ghost use Rattle.pi_dexwrite.specs.Built.{added_in};
ghost use Rattle.pi_dexwrite.specs.Held.{all_added, are_few, AreHeld};

use crate::fault::BuildError;
use crate::part::Part;
use pi_dexnames::name_class;
use pi_dexpools::Pools;
use pi_dexpools::gathered::{Counts, Place};
use pi_dexsizes::sized;
use pi_model::describe::ClassDesc;
use pi_model::listed::Listed;
use pi_model::prog::Prog;
use pi_poollaws::{gathered_are_taken_back, named_are_gathered};
use std::alloc::{AllocError, Global};

/// The most types, and the most prototypes, that a file has.
const MOST: usize = 65535;

/// Whether there are no more types and prototypes than a file has.
fn is_few(counts: Counts) -> bool
    ensures { result ≡ are_few counts }
{
    counts.types <= MOST && counts.protos <= MOST
}

/// Adds what a class names to the pools, and tells where each thing stands. After a refusal the pools hold what they held.
fn name_counted(
    alloc: Global,
    pools: &mut Pools,
    prog: &Prog,
    class: &ClassDesc,
) -> Result<Listed<Place>, BuildError>
    requires { IsTrue (class_below (length prog.now.names) class.now) }
    ensures gathered { OnOk result (pools.new ≡ gathered pools.old (named_by_class (content_in prog.now class.now))) }
    ensures places { IfOk result (λ places. places ≡ places_of pools.old (named_by_class (content_in prog.now class.now))) }
    ensures few { OnOk result (IsTrue (are_few (counts_of (gathered pools.old (named_by_class (content_in prog.now class.now)))))) }
    ensures err { OnErr result (pools.new ≡ pools.old) }
    ensures full { IfErr result (λ e. e ≡ Full → are_few (counts_of (gathered pools.old (named_by_class (content_in prog.now class.now)))) ≡ false) }
{
    gathered_are_taken_back();
    let before = pools.counts();
    let places = match name_class(alloc, pools, prog, class) {
        Ok(places) => places,
        Err(AllocError) => {
            pools.cut(before);
            return Err(BuildError::OutOfMemory);
        }
    };
    if !is_few(pools.counts()) {
        pools.cut(before);
        return Err(BuildError::Full);
    }
    Ok(places)
}

/// Adds a class with what it names behind the others. After a refusal all stands as it did.
pub(crate) fn add_part<'p>(
    alloc: Global,
    parts: &mut Vec<Part<'p>>,
    pools: &mut Pools,
    prog: &'p Prog,
    class: &'p ClassDesc,
    sparse: Listed<Listed<u32>>,
) -> Result<(), BuildError>
    requires named { IsTrue (class_below (length prog.now.names) class.now) }
    requires spelled { IsSpelled (added_in prog.now sparse class.now) }
    requires held { AreHeld parts.old.items pools.old }
    ensures held { AreHeld parts.new.items pools.new }
    ensures ok { OnOk result (all_added parts.new.items ≡ all_added parts.old.items ++ added_in prog.now sparse class.now ∷ []) }
    ensures err { OnErr result (all_added parts.new.items ≡ all_added parts.old.items) }
    ensures counted { IsTrue (is_counted (pools_for (all_added parts.new.items))) }
    ensures full { IfErr result (λ e. e ≡ Full → is_counted (pools_for (all_added parts.old.items ++ added_in prog.now sparse class.now ∷ [])) ≡ false) }
{
    named_are_gathered();
    sized(class);
    if parts.reserve(1).is_err() {
        return Err(BuildError::OutOfMemory);
    }
    let places = match name_counted(alloc, pools, prog, class) {
        Ok(places) => places,
        Err(fault) => return Err(fault),
    };
    parts.push_reserved(Part {
        prog,
        class,
        sparse,
        places,
    });
    Ok(())
}
