// A builder of files.

ghost use Rattle.std.specs.Prelude.{◌≡◌, ◌<◌, ℕ, List, [], length, false, IfOk, IfErr, OnOk, OnErr, IsTrue};
ghost use Rattle.pi_dextables.specs.Said.{HasForm};
ghost use Rattle.pi_classlaws.specs.Written.{KeepsRules, SaysAgain};
ghost use Rattle.pi_classtables.specs.Whole.{Added, is_counted, pools_for};
ghost use Rattle.pi_dexwrite.specs.declared.fault.BuildError.TheVariants.{Full};
ghost use Rattle.pi_dexwrite.specs.Built.{CanBeAdded, IsAddedTo, IsFileOf, TheyFit};

use crate::add::add_part;
use crate::fault::BuildError;
use crate::finish::file_of;
use crate::part::Part;
use pi_dexpools::Pools;
use pi_model::listed::Listed;
use pi_model::numbers::ClassNo;
use pi_model::prog::Prog;
use std::alloc::Global;
use std::marker::Model;

/// Classes of programs on their way into a file, in the order in which they were added.
#[derive(Drop)]
pub struct Builder<'p> {
    parts: Vec<Part<'p>>,
    pools: Pools,
}

impl<'p> Model for Builder<'p> {
    ghost use Rattle.std.specs.Prelude.{List};
    ghost use Rattle.pi_classtables.specs.Whole.{Added as Class};
    ghost use Rattle.pi_dexwrite.specs.Held.{all_added, AreHeld};

    ghost Value = { List Class };

    ghost view = { λ b. all_added b.parts.items };

    ghost invariant = { λ b. AreHeld b.parts.items b.pools };
}

impl<'p> Builder<'p> {
    /// The builder of no class, which takes no memory.
    pub fn new(alloc: Global) -> Builder<'p>
        ensures { result ≡ [] }
    {
        Builder {
            parts: Vec::new(alloc),
            pools: Pools::new(alloc),
        }
    }

    /// Adds a class behind the others. A switch is written with all its keys where these do not follow each other.
    pub fn add_class(
        &mut self,
        alloc: Global,
        prog: &'p Prog,
        class: ClassNo,
    ) -> Result<(), BuildError>
        requires below { class.0 < length prog.now.classes }
        requires spelled { CanBeAdded prog.now class.0 [] }
        ensures ok { OnOk result (IsAddedTo self.old prog.now class.0 [] self.new) }
        ensures counted { IsTrue (is_counted (pools_for self.new)) }
        ensures err { OnErr result (self.new ≡ self.old) }
        ensures full { IfErr result (λ e. e ≡ Full → (all : List Added) → IsAddedTo self.old prog.now class.0 [] all → is_counted (pools_for all) ≡ false) }
    {
        self.add_class_with(alloc, prog, class, Listed::new(alloc))
    }

    /// Adds a class behind the others; `sparse` are for each of its methods, in order, the addresses of the switches that are
    /// written with all their keys even where these follow each other. A method behind the last list has none.
    pub fn add_class_with(
        &mut self,
        alloc: Global,
        prog: &'p Prog,
        class: ClassNo,
        sparse: Listed<Listed<u32>>,
    ) -> Result<(), BuildError>
        requires below { class.0 < length prog.now.classes }
        requires spelled { CanBeAdded prog.now class.0 sparse }
        ensures ok { OnOk result (IsAddedTo self.old prog.now class.0 sparse self.new) }
        ensures counted { IsTrue (is_counted (pools_for self.new)) }
        ensures err { OnErr result (self.new ≡ self.old) }
        ensures full { IfErr result (λ e. e ≡ Full → (all : List Added) → IsAddedTo self.old prog.now class.0 sparse all → is_counted (pools_for all) ≡ false) }
    {
        let described = prog.class(class);
        add_part(
            alloc,
            &mut self.parts,
            &mut self.pools,
            prog,
            described,
            sparse,
        )
    }

    /// The bytes of a file that says the classes that were added.
    pub fn finish(self, alloc: Global) -> Result<Vec<u8>, BuildError>
        ensures bytes { IfOk result (λ file. IsFileOf self.entry file.items) }
        ensures form { IfOk result (λ file. HasForm file.items) }
        ensures kept { IfOk result (λ file. KeepsRules self.entry file.items) }
        ensures said { IfOk result (λ file. SaysAgain self.entry file.items) }
        ensures fits { OnOk result (TheyFit self.entry) }
        ensures full { IfErr result (λ e. e ≡ Full → TheyFit self.entry → ⊥) }
    {
        let Builder { parts, pools } = self;
        file_of(alloc, parts.as_slice(), pools)
    }
}
