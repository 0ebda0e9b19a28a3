// Writing a whole piece into a sink, which takes a front of it at each call.
// docs/outside.md states the rules.
ghost use Rattle.pi_base.specs.Outside.{Puts};

use crate::outside::{Sink, SinkError};

/// Writes all of `piece`, in as many calls as the sink needs. Where the sink fails, it has taken
/// what the calls before took, and `put_all` makes no further call.
pub fn put_all<S: Sink>(sink: &mut S, piece: &[u8]) -> Result<(), SinkError>
    ensures { Puts piece.now result (S.view sink.old) (S.view sink.new) }
{
    let mut rest = piece;
    while !rest.is_empty() {
        match sink.write(rest) {
            Ok(taken) => {
                let (_, left) = rest.split_at(taken);
                rest = left;
            }
            Err(error) => return Err(error),
        }
    }
    Ok(())
}
