// The law that a file can say a class whatever its names are. It needs nothing and does nothing.

ghost use Rattle.std.specs.Prelude.{ℕ, List};
ghost use Rattle.pi_model.specs.declared.describe.ClassDesc.{ClassDesc};
ghost use Rattle.pi_model.specs.declared.numbers.NameNo.{NameNo};
ghost use Rattle.pi_contents.specs.Named.{class_content};
ghost use Rattle.pi_classtables.specs.Spelled.{IsSpelled};

/// Whether a file can say a class does not depend on the texts of its names.
pub fn whatever_the_names()
    ensures { (one other : NameNo → List ℕ) (d : ClassDesc) (sparse : List (List ℕ))
        → IsSpelled (record { class = class_content one d; sparse = sparse })
        → IsSpelled (record { class = class_content other d; sparse = sparse }) }
{}
