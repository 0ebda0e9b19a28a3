// Whether a class can be added to a builder.

ghost use Rattle.std.specs.Prelude.{◌<◌, ◌↔◌, length, IfOk, IsTrue};
ghost use Rattle.pi_dexwrite.specs.Built.{CanBeAdded};

use pi_dexspelled::is_spelled;
use pi_model::listed::Listed;
use pi_model::numbers::ClassNo;
use pi_model::prog::Prog;
use std::alloc::{AllocError, Global};

/// Whether a file can say a class of a program, so that it can be added; `sparse` are as for `Builder::add_class_with`. It is tried
/// out, which takes time and memory as writing it does.
pub fn can_be_added(
    alloc: Global,
    prog: &Prog,
    class: ClassNo,
    sparse: &Listed<Listed<u32>>,
) -> Result<bool, AllocError>
    requires { class.0 < length prog.now.classes }
    ensures { IfOk result (λ b. IsTrue b ↔ CanBeAdded prog.now class.0 sparse.now) }
{
    let described = prog.class(class);
    is_spelled(alloc, described, sparse.as_slice())
}
