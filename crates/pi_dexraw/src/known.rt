// The bytes of strings, and the texts that rules ask for by their letters, each looked up once.

ghost use Rattle.std.specs.Prelude.{◌≡◌, ◌<◌, ◌==◌, None, length, take, slice_get, Some, IfOk};
ghost use Rattle.std.specs.List.{position_or_len};
ghost use Rattle.pi_format.specs.Tables.{count_at, string_ids};
ghost use Rattle.pi_format.specs.Rules.Strings.{string_bytes, broken_strings};
ghost use Rattle.pi_dexids.specs.Tables.{HasTables};
ghost use Rattle.pi_dexids.specs.Facts.{AreFacts};
ghost use Rattle.pi_dexids.specs.Tails.{AreTails};
ghost use Rattle.pi_dexraw.specs.Whole.{known_text, known_of};

use pi_dexids::entries::{STRING_IDS, count, text_place};
use pi_dexids::tail::Tail;
use pi_dexids::tails::string;
use pi_dexids::texts::head;
use std::alloc::{AllocError, Global};

/// Which of the texts that rules ask for a text is.
#[derive(Clone, Copy, Debug)]
pub(crate) struct Known {
    pub(crate) is_constructor: bool,
    pub(crate) is_initialiser: bool,
    pub(crate) is_string_type: bool,
    pub(crate) is_class_type: bool,
}

const CONSTRUCTOR: &[u8] = b"<init>";

const INITIALISER: &[u8] = b"<clinit>";

const STRING_TYPE: &[u8] = b"Ljava/lang/String;";

const CLASS_TYPE: &[u8] = b"Ljava/lang/Class;";

/// Which of the texts the bytes spell.
fn spelled_by(bytes: &[u8]) -> Known
    ensures { result ≡ known_text bytes.now }
{
    Known {
        is_constructor: CONSTRUCTOR == bytes,
        is_initialiser: INITIALISER == bytes,
        is_string_type: STRING_TYPE == bytes,
        is_class_type: CLASS_TYPE == bytes,
    }
}

/// The bytes before the first 0.
fn before_zero<'a>(bytes: &'a [u8]) -> &'a [u8]
    ensures { result.now ≡ take (position_or_len (λ b. b == 0) bytes.now) bytes.now }
{
    for i in 0..bytes.len() {
        if bytes[i] == 0 {
            return bytes.split_at(i).0;
        }
    }
    bytes
}

/// The bytes of a string before its 0.
#[tactic(auto, using(crate::proofs::Zeros::bytes_are, crate::proofs::Zeros::no_bytes))]
pub(crate) fn text_bytes<'a>(file: &'a [u8], i: usize) -> &'a [u8]
    requires tables { HasTables file.now }
    requires counted { i < count_at file.now string_ids }
    requires texts { broken_strings file.now ≡ None }
    ensures { result.now ≡ string_bytes file.now i }
{
    match head(file, text_place(file, i)) {
        Some((_, begin)) => before_zero(file.split_at(begin).1),
        None => file.split_at(0).0,
    }
}

/// Which of the known texts a string is. None of them has more than 18 units, so longer ones are not read.
fn known_text_of(file: &[u8], tails: &[Tail], i: usize) -> Known
    requires tables { HasTables file.now }
    requires counted { i < count_at file.now string_ids }
    requires texts { broken_strings file.now ≡ None }
    requires tails { AreTails file.now tails.now }
    ensures { result ≡ known_of file.now i }
{
    if string(file, tails, i).units > 18 {
        return Known {
            is_constructor: false,
            is_initialiser: false,
            is_string_type: false,
            is_class_type: false,
        };
    }
    spelled_by(text_bytes(file, i))
}

/// For each string which of the known texts it is.
pub(crate) fn known_texts(
    alloc: Global,
    file: &[u8],
    tails: &[Tail],
) -> Result<Vec<Known>, AllocError>
    requires tables { HasTables file.now }
    requires texts { broken_strings file.now ≡ None }
    requires tails { AreTails file.now tails.now }
    ensures { IfOk result (λ list. AreFacts (known_of file.now) (count_at file.now string_ids) list.items) }
{
    let mut list = Vec::new(alloc);
    for i in 0..count(file, STRING_IDS) {
        list.push(known_text_of(file, tails, i))?;
    }
    Ok(list)
}
