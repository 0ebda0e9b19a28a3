// The handler lists of a code item.

ghost use Rattle.std.specs.Prelude.{◌≡◌, ◌+◌, ◌*◌, ◌<◌, ◌≤◌, ◌≢◌, length, true, IfOk};
ghost use Rattle.pi_bytes.specs.Numbers.{most_bytes, word_end};
ghost use Rattle.pi_format.specs.Rules.CodeItems.{code_head, code_lies, code_lists, tries_at, try_range, is_list_at, ranges_have_lists};

use crate::handler_lists::HandlerLists;
use crate::heads::{CodeHead, head};
use crate::ranges::{lists_at, range, ranges_hold, tries_at};
use crate::reading::lists;
use std::alloc::{AllocError, Global};

/// Whether the list of a range is one of those that stand behind the ranges.
fn has_list(file: &[u8], begin: usize, place: usize, k: usize, lists: &HandlerLists) -> bool
    requires inside { begin + 8 * k + 8 ≤ length file.now }
    requires place { place ≤ most_bytes }
    ensures { result ≡ is_list_at lists.now (place + (try_range file.now begin k).handlers) }
{
    let range = range(file, begin, k);
    lists.has((place + range.handlers as usize) as u32)
}

/// Whether each range has one of the lists.
fn have_lists(file: &[u8], at: usize, head: &CodeHead, lists: &HandlerLists) -> bool
    requires small { at < word_end }
    requires file { length file.now ≤ most_bytes }
    requires inside { tries_at at head.now + 8 * head.now.tries ≤ length file.now }
    ensures { result ≡ ranges_have_lists file.now at head.now lists.now }
{
    let begin = tries_at(at, head);
    let place = lists_at(at, head);
    for k in 0..head.tries as usize {
        if !has_list(file, begin, place, k, lists) {
            return false;
        }
    }
    true
}

/// The handler lists of a code item that has ranges.
fn of_ranges(
    alloc: Global,
    file: &[u8],
    at: usize,
    head: &CodeHead,
) -> Result<Option<HandlerLists>, AllocError>
    requires header { 112 ≤ length file.now }
    requires file { length file.now ≤ most_bytes }
    requires small { at < word_end }
    requires head { head.now ≡ code_head file.now at }
    requires some { head.now.tries ≢ 0 }
    ensures { IfOk result (λ r. r ≡ code_lists file.now at) }
{
    if !ranges_hold(file, at, head) {
        return Ok(None);
    }
    let Some(lists) = lists(alloc, file, head.units, lists_at(at, head))? else {
        return Ok(None);
    };
    if !have_lists(file, at, head, &lists) {
        return Ok(None);
    }
    Ok(Some(lists))
}

/// The handler lists of a code item, none where it has no ranges; None where they or the ranges do not hold.
pub fn handlers(alloc: Global, file: &[u8], at: usize) -> Result<Option<HandlerLists>, AllocError>
    requires header { 112 ≤ length file.now }
    requires file { length file.now ≤ most_bytes }
    requires small { at < word_end }
    requires lies { code_lies file.now at ≡ true }
    ensures { IfOk result (λ r. r ≡ code_lists file.now at) }
{
    let head = head(file, at);
    if head.tries == 0 {
        return Ok(Some(HandlerLists::none(alloc)));
    }
    of_ranges(alloc, file, at, &head)
}
