// A text that rows make. These rows belong to each subject that reads a text:
//
//   text TEXT             the text is this one, and empty where none stands there
//   repeat COUNT TEXT     adds a text so many times behind it
use pi_rows::fault::Fault;
use pi_rows::words::{copies, halves, text_of};
use std::alloc::Global;

/// Follows a row on a text.
pub(crate) fn follow_text(
    alloc: Global,
    text: &mut Vec<u8>,
    verb: &str,
    rest: &str,
) -> Result<(), Fault> {
    match verb {
        "text" => *text = text_of(alloc, rest)?,
        "repeat" => {
            let (count, piece) = halves(rest)?;
            let piece = text_of(alloc, piece)?;
            let further = copies(alloc, count.parse::<u64>()?, piece.as_slice())?;
            text.extend_from_slice(further.as_slice())?;
        }
        _ => return Err(Fault::NoRow),
    }
    Ok(())
}
