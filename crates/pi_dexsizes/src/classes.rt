// The numbers in classes: their fields and their methods.

ghost use Rattle.std.specs.Prelude.{ℕ, List};
ghost use Rattle.pi_model.specs.declared.describe.ClassDesc.{ClassDesc};
ghost use Rattle.pi_model.specs.declared.describe.FieldDesc.{FieldDesc};
ghost use Rattle.pi_model.specs.declared.describe.Init.{Init};
ghost use Rattle.pi_model.specs.declared.describe.MethodDesc.{MethodDesc};
ghost use Rattle.pi_model.specs.declared.numbers.NameNo.{NameNo};
ghost use Rattle.pi_contents.specs.Named.{init_content, field_content, method_content, class_content};
ghost use Rattle.pi_classtables.specs.Sized.{InitSized, FieldSized, MethodSized, IsSized};

use crate::range::InRange;
use pi_model::describe::{ClassDesc, FieldDesc, Init, MethodDesc};

impl InRange for Init {
    ghost in_range = { λ (i : Init). (text : NameNo → List ℕ) → InitSized (init_content text i) };

    fn read(&self) {
        match self {
            Init::Word(word) => {
                let _word = *word;
            }
            Init::Long(long) => {
                let _long = *long;
            }
            Init::Zero | Init::Str(_) | Init::Cls(_) => {}
        }
    }
}

impl InRange for FieldDesc {
    ghost in_range = { λ (f : FieldDesc). (text : NameNo → List ℕ) → FieldSized (field_content text f) };

    fn read(&self) {
        let _flags = self.flags;
        self.init.read();
    }
}

impl InRange for MethodDesc {
    ghost in_range = { λ (m : MethodDesc). (text : NameNo → List ℕ) → MethodSized (method_content text m) };

    fn read(&self) {
        let _flags = self.flags;
        self.code.read();
    }
}

/// The numbers in a class fit the types that a program has for them.
pub fn sized(class: &ClassDesc)
    ensures { (text : NameNo → List ℕ) → IsSized (class_content text class.now) }
{
    let _flags = class.flags;
    class.fields.read();
    class.methods.read();
}
