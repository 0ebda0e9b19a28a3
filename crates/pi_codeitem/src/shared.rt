// Rule X20, parted into what is asked of a code item whichever method has it, and what a method asks of it besides: so an
// item that methods share is tested once. docs/dex-format.md states the rule.

ghost use Rattle.std.specs.Prelude.{◌≡◌, ◌<◌, ◌≤◌, length, sum_by, true, IfOk};
ghost use Rattle.pi_bytes.specs.Numbers.{most_bytes, word_end};
ghost use Rattle.pi_format.specs.Rules.CodeItems.{code_lies, code_holds};
ghost use Rattle.pi_codeitem.specs.Shared.{list_bytes, bytes_with, item_bytes, takes_words};

use crate::codes::handlers;
use crate::handler_lists::HandlerList;
use crate::heads::{CodeHead, head, lies};
use std::alloc::{AllocError, Global};

/// The bytes of a list of handlers at least.
fn list_bytes(list: &HandlerList) -> u32
    requires { list_bytes list.now ≤ most_bytes }
    ensures { result ≡ list_bytes list.now }
{
    2 * list.typed.len() as u32 + 1
}

/// The bytes of lists of handlers at least.
fn lists_bytes(lists: &[HandlerList]) -> u32
    requires { sum_by list_bytes lists.now ≤ most_bytes }
    ensures { result ≡ sum_by list_bytes lists.now }
{
    let mut bytes = 0;
    for k in 0..lists.len() {
        bytes += list_bytes(&lists[k]);
    }
    bytes
}

/// The bytes of a code item with a head and lists, at least.
fn bytes_with(head: &CodeHead, lists: &[HandlerList]) -> u32
    requires { bytes_with head.now lists.now ≤ most_bytes }
    ensures { result ≡ bytes_with head.now lists.now }
{
    16 + 2 * head.units + 8 * head.tries as u32 + lists_bytes(lists)
}

/// The bytes that a code item takes of a file at least; None where it holds for no method.
#[tactic(auto, using(crate::proofs::Taken::no_item, crate::proofs::Taken::no_units, crate::proofs::Taken::item_with))]
pub fn item_bytes(alloc: Global, file: &[u8], at: usize) -> Result<Option<u32>, AllocError>
    requires header { 112 ≤ length file.now }
    requires file { length file.now ≤ most_bytes }
    requires small { at < word_end }
    ensures { IfOk result (λ r. r ≡ item_bytes file.now at) }
{
    if !lies(file, at) {
        return Ok(None);
    }
    let head = head(file, at);
    if head.units == 0 {
        return Ok(None);
    }
    match handlers(alloc, file, at) {
        Err(e) => Err(e),
        Ok(None) => Ok(None),
        Ok(Some(lists)) => Ok(Some(bytes_with(&head, lists.as_slice()))),
    }
}

/// Whether a code item takes so many argument words, for which it has registers.
pub fn takes_words(file: &[u8], at: usize, words: u32) -> bool
    requires { code_lies file.now at ≡ true }
    ensures { result ≡ takes_words file.now words at }
{
    let head = head(file, at);
    head.ins as u32 == words && words <= head.registers as u32
}

/// Whether a code item holds for a method with that many argument words.
#[tactic(auto, using(crate::proofs::Taken::held_in_parts, crate::proofs::Taken::item_lies))]
pub fn holds(alloc: Global, file: &[u8], at: usize, words: u32) -> Result<bool, AllocError>
    requires header { 112 ≤ length file.now }
    requires file { length file.now ≤ most_bytes }
    requires small { at < word_end }
    ensures { IfOk result (λ r. r ≡ code_holds file.now words at) }
{
    match item_bytes(alloc, file, at) {
        Err(e) => Err(e),
        Ok(None) => Ok(false),
        Ok(Some(_)) => Ok(takes_words(file, at, words)),
    }
}
