// The registers that an instruction names.

ghost use Rattle.std.specs.Prelude.{◌≡◌};
ghost use Rattle.pi_format.specs.Says.Insns.{registers};

use pi_insn::RawRegs;
use pi_model::insn::Regs;

/// The registers that an instruction names.
pub(crate) fn regs_of(regs: &RawRegs) -> Regs
    ensures { result ≡ registers regs.now }
{
    match *regs {
        RawRegs::Few { n, regs } => Regs::few(n, regs),
        RawRegs::Run { first, n } => Regs::row(first, n),
    }
}
