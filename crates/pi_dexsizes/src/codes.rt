// The numbers in codes: their instructions and their handlers.

ghost use Rattle.std.specs.Prelude.{ℕ, List};
ghost use Rattle.pi_model.specs.declared.numbers.NameNo.{NameNo};
ghost use Rattle.pi_contents.specs.Named.{bare, line_content, catch_content, code_content};
ghost use Rattle.pi_classtables.specs.Sized.{CaseSized, InsnSized, LineSized, CatchSized, CodeSized};

use crate::range::InRange;
use pi_model::describe::{Catch, Code, Line};
use pi_model::insn::{Case, Insn};

impl InRange for Case {
    ghost in_range = { CaseSized };

    fn read(&self) {
        let _key = self.key;
        let _to = self.to;
    }
}

impl InRange for Insn {
    ghost in_range = { λ i. InsnSized (bare i) };

    fn read(&self) {
        match self {
            Insn::Goto { to } | Insn::If { to, .. } | Insn::IfZ { to, .. } => {
                let _to = *to;
            }
            Insn::Switch { cases, .. } => cases.read(),
            _ => {}
        }
    }
}

impl InRange for Line {
    ghost in_range = { λ l. (text : NameNo → List ℕ) → LineSized (line_content text l) };

    fn read(&self) {
        self.insn.read();
    }
}

impl InRange for Catch {
    ghost in_range = { λ c. (text : NameNo → List ℕ) → CatchSized (catch_content text c) };

    fn read(&self) {
        let _from = self.from;
        let _to = self.to;
        let _at = self.at;
    }
}

impl InRange for Code {
    ghost in_range = { λ c. (text : NameNo → List ℕ) → CodeSized (code_content text c) };

    fn read(&self) {
        let _regs = self.regs;
        let _ins = self.ins;
        let _outs = self.outs;
        let _units = self.units;
        self.insns.read();
        self.tries.read();
    }
}
