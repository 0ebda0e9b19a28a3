// Rules one after the other.

ghost use Rattle.std.specs.Prelude.{◌≡◌, None, OnOk};
ghost use Rattle.pi_format.specs.Rules.{broken_or};
ghost use Rattle.pi_dexraw.specs.Asked.{Asks};

use pi_dexraw::DexFault;

/// Tells a rule that is broken.
pub(crate) fn ask(rule: u8, broken: Option<u32>) -> Result<(), DexFault>
    ensures asks { Asks (broken_or rule broken) result }
    ensures holds { OnOk result (broken ≡ None) }
{
    match broken {
        None => Ok(()),
        Some(at) => Err(DexFault::Rule { rule, at }),
    }
}
