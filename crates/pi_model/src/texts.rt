// Texts by their units: when two are the same, and a text of ASCII bytes.

ghost use Rattle.std.specs.Prelude.{◌≡◌, ◌↔◌, IsTrue, IfOk};
ghost use Rattle.pi_model.specs.Texts.{same_text};

use crate::listed::Units;
use std::alloc::{AllocError, Global};

/// Whether two texts have the same units in the same order.
pub fn same_text(a: &[u16], b: &[u16]) -> bool
    ensures exact { IsTrue result ↔ (a.now ≡ b.now) }
    ensures value { result ≡ same_text a.now b.now }
{
    a == b
}

/// The text whose units are those bytes, as a literal's ASCII bytes are.
pub fn text_of(alloc: Global, ascii: &[u8]) -> Result<Units, AllocError>
    ensures { IfOk result (λ units. units ≡ ascii.now) }
{
    let mut units = Units::new(alloc);
    for byte in ascii {
        units.push(*byte as u16)?;
    }
    Ok(units)
}
