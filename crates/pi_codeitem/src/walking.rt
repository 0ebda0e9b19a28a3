// The walk over the units of a code.

ghost use Rattle.std.specs.Prelude.{◌≡◌, ◌≤◌, length, IfOk};
ghost use Rattle.pi_bytes.specs.Numbers.{most_bytes};
ghost use Rattle.pi_format.specs.Rules.Pieces.{walk};

use crate::pieces::Piece;
use crate::walks::Walk;
use std::alloc::{AllocError, Global};

/// The instructions and payloads that stand one behind the other from unit 0 on, up to the end or the address at which
/// neither stands.
pub fn walk<'a>(alloc: Global, units: &'a [u16]) -> Result<Walk<'a>, AllocError>
    requires { length units.now ≤ most_bytes }
    ensures { IfOk result (λ w. w ≡ walk units.now) }
{
    let mut starts = Vec::new(alloc);
    let mut askers = Vec::new(alloc);
    let mut at = 0;
    while at < units.len() {
        let Some(piece) = Piece::front(units, at) else {
            return Ok(Walk::new(units, starts, askers, Some(at as u32)));
        };
        starts.push(piece.at)?;
        askers.push(piece.asker())?;
        at += piece.units as usize;
    }
    Ok(Walk::new(units, starts, askers, None))
}
