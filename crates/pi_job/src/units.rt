// Texts in UTF-8 as units of 16 bits.

ghost use Rattle.std.specs.Prelude.{◌≡◌, IfOk};
ghost use Rattle.pi_job.specs.Units.{units_of, text_units};

use pi_model::listed::Units;
use std::alloc::{AllocError, Global};

/// The units of a text.
pub(crate) fn units_of(alloc: Global, text: &str) -> Result<Units, AllocError>
    ensures { IfOk result (λ units. units ≡ units_of text.now) }
{
    let mut units = Units::new(alloc);
    for c in text.chars() {
        let mut room = [0u16; 2];
        units.extend_from_slice(c.encode_utf16(&mut room))?;
    }
    Ok(units)
}

/// The units of a text, None where the bytes are not UTF-8.
pub(crate) fn text_units(alloc: Global, bytes: &[u8]) -> Result<Option<Units>, AllocError>
    ensures { IfOk result (λ units. units ≡ text_units bytes.now) }
{
    match std::str::from_utf8(bytes) {
        Ok(text) => Ok(Some(units_of(alloc, text)?)),
        Err(_) => Ok(None),
    }
}
