// The type lists of a file.

ghost use Rattle.std.specs.Prelude.{◌≡◌, ◌+◌, ◌*◌, ◌<◌, ◌≤◌, length, true, IfOk};
ghost use Rattle.pi_bytes.specs.Numbers.{word_at, halves_at, word_end};
ghost use Rattle.pi_format.specs.Rules.Entries.{list_fits, list_at};

use pi_bytes::numbers::{halves, is_in_file, word};
use std::alloc::{AllocError, Global};

/// Whether there is a type list at an offset: none at 0, else one at a multiple of four in the file.
pub(crate) fn fits(file: &[u8], at: usize) -> bool
    requires { at < word_end }
    ensures { result ≡ list_fits file.now at }
{
    at == 0
        || (at % 4 == 0
            && is_in_file(file, at, 4)
            && is_in_file(file, at + 4, 2 * word(file, at) as usize))
}

/// How many types a list has.
#[tactic(auto, using(crate::proofs::Halves::list_length, crate::proofs::Halves::list_in_file))]
pub(crate) fn size(file: &[u8], at: usize) -> usize
    requires fits { list_fits file.now at ≡ true }
    requires small { at < word_end }
    ensures { result ≡ length (list_at file.now at) }
{
    if at == 0 {
        return 0;
    }
    word(file, at) as usize
}

/// The types of the list at an offset.
#[tactic(auto, using(crate::proofs::Halves::list_in_file, crate::proofs::Halves::some_list))]
pub(crate) fn list(alloc: Global, file: &[u8], at: usize) -> Result<Vec<u16>, AllocError>
    requires fits { list_fits file.now at ≡ true }
    requires small { at < word_end }
    ensures { IfOk result (λ list. list.items ≡ list_at file.now at) }
{
    if at == 0 {
        return Ok(Vec::new(alloc));
    }
    halves(alloc, file, at + 4, word(file, at) as usize)
}
