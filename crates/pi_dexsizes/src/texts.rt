// The units of texts.

ghost use Rattle.std.specs.Prelude.{ℕ, List, All};
ghost use Rattle.pi_dextables.specs.Writable.{IsHalf};

use crate::range::{InRange, read_all};
use pi_model::listed::Units;

impl InRange for u16 {
    ghost in_range = { IsHalf };

    fn read(&self) {
        let _unit = *self;
    }
}

/// The units of texts fit theirs.
pub fn halves(texts: &[Units])
    ensures { All (λ (s : List ℕ). All IsHalf s) texts.now }
{
    read_all(texts);
}
