// Whether two lists whose numbers rise have none in common.

ghost use Rattle.std.specs.Prelude.{◌≡◌, true, None};
ghost use Rattle.pi_format.specs.Rules.ClassData.{are_apart};
ghost use Rattle.pi_classdata.specs.Held.{rise};

use crate::rows::MemberRow;

/// Whether no member stands in both lists; each is gone through once.
pub(crate) fn are_apart(xs: &[MemberRow], ys: &[MemberRow]) -> bool
    requires first { rise None xs.now ≡ true }
    requires second { rise None ys.now ≡ true }
    ensures { result ≡ are_apart xs.now ys.now }
{
    let mut i = 0;
    let mut j = 0;
    while i < xs.len() && j < ys.len() {
        let x = &xs[i];
        let y = &ys[j];
        if x.id == y.id {
            return false;
        }
        if x.id < y.id {
            i += 1;
        } else {
            j += 1;
        }
    }
    true
}
