// Reading of the handler lists of a code item.

ghost use Rattle.std.specs.Prelude.{◌≡◌, ◌+◌, ◌*◌, ◌<◌, ◌≤◌, length, nat_abs, true, IfOk, IfSome, OnSome, List, ℕ};
ghost use Rattle.pi_bytes.specs.Numbers.{most_bytes};
ghost use Rattle.pi_bytes.specs.Place.{Place};
ghost use Rattle.pi_bytes.specs.Leb.{uleb_at, sleb_at};
ghost use Rattle.pi_format.specs.Rules.Rows.{readable};
ghost use Rattle.pi_format.specs.Rules.CodeItems.{handler_at, handler_holds, handlers_from, has_last, last_handler, handler_list, lists_from, handler_lists};
ghost use Rattle.pi_codeitem.specs.Finding.{Finds, held_handler};

use crate::bytes::is_index;
use crate::handler_lists::{Handler, HandlerList, HandlerLists};
use pi_bytes::cursor::Cursor;
use pi_model::listed::Listed;
use std::alloc::{AllocError, Global};

/// The place in a file's header where the number of its types stands.
const TYPE_IDS: usize = 64;

/// An unsigned number.
#[tactic(auto, using(crate::proofs::Readers::whole_is_long))]
fn uleb(cursor: &mut Cursor<'_>) -> Option<u32>
    ensures exact { Finds (readable (uleb_at cursor.old)) cursor.new result }
    ensures same { cursor.new.bytes ≡ cursor.old.bytes }
    ensures stays { cursor.old.at ≤ cursor.new.at }
    ensures behind { OnSome result (cursor.old.at < cursor.new.at) }
{
    match cursor.uleb() {
        Ok(number) => Some(number),
        Err(_) => None,
    }
}

/// A signed number.
#[tactic(auto, using(crate::proofs::Readers::whole_is_long))]
fn sleb(cursor: &mut Cursor<'_>) -> Option<i32>
    ensures exact { Finds (readable (sleb_at cursor.old)) cursor.new result }
    ensures same { cursor.new.bytes ≡ cursor.old.bytes }
    ensures stays { cursor.old.at ≤ cursor.new.at }
    ensures behind { OnSome result (cursor.old.at < cursor.new.at) }
{
    match cursor.sleb() {
        Ok(number) => Some(number),
        Err(_) => None,
    }
}

/// A handler.
#[tactic(auto, unfolding(pi_format::specs::Rules::CodeItems::handler_at))]
fn handler(cursor: &mut Cursor<'_>) -> Option<Handler>
    ensures exact { Finds (handler_at cursor.old) cursor.new result }
    ensures same { cursor.new.bytes ≡ cursor.old.bytes }
    ensures stays { cursor.old.at ≤ cursor.new.at }
    ensures behind { OnSome result (cursor.old.at < cursor.new.at) }
{
    let ty = uleb(cursor)?;
    let to = uleb(cursor)?;
    Some(Handler { ty, to })
}

/// Whether there is a handler's type, and its unit.
fn handler_holds(file: &[u8], units: u32, handler: &Handler) -> bool
    requires { 112 ≤ length file.now }
    ensures { result ≡ handler_holds file.now units handler.now }
{
    is_index(file, handler.ty, TYPE_IDS) && handler.to < units
}

/// A handler, where it holds.
#[tactic(auto, unfolding(crate::specs::Finding::held_handler))]
fn held(file: &[u8], units: u32, cursor: &mut Cursor<'_>) -> Option<Handler>
    requires { 112 ≤ length file.now }
    ensures exact { Finds (held_handler file.now units cursor.old) cursor.new result }
    ensures same { cursor.new.bytes ≡ cursor.old.bytes }
    ensures stays { cursor.old.at ≤ cursor.new.at }
    ensures behind { OnSome result (cursor.old.at < cursor.new.at) }
{
    let handler = handler(cursor)?;
    if handler_holds(file, units, &handler) {
        Some(handler)
    } else {
        None
    }
}

/// So many handlers one behind the other, each of which holds.
fn typed(
    alloc: Global,
    file: &[u8],
    units: u32,
    n: u32,
    cursor: &mut Cursor<'_>,
) -> Result<Option<Listed<Handler>>, AllocError>
    requires { 112 ≤ length file.now }
    ensures exact { IfOk result (λ r. Finds (handlers_from file.now units n cursor.old) cursor.new r) }
    ensures same { cursor.new.bytes ≡ cursor.old.bytes }
    ensures behind { cursor.old.at ≤ cursor.new.at }
{
    let mut list = Vec::new(alloc);
    for i in 0..n {
        match held(file, units, cursor) {
            None => return Ok(None),
            Some(handler) => list.push(handler)?,
        }
    }
    Ok(Some(Listed::from_vec(list)))
}

/// How many typed handlers a list of that size has.
fn count(size: i32) -> u32
    ensures { result ≡ nat_abs size }
{
    size.unsigned_abs()
}

/// Whether a list of that size has a handler of all.
fn has_last(size: i32) -> bool
    ensures { result ≡ has_last size }
{
    size <= 0
}

/// The handler of all, where the list has one.
fn last(units: u32, has: bool, cursor: &mut Cursor<'_>) -> Option<Option<u32>>
    ensures exact { (file : List ℕ) → Finds (last_handler file units has cursor.old) cursor.new result }
    ensures same { cursor.new.bytes ≡ cursor.old.bytes }
    ensures stays { cursor.old.at ≤ cursor.new.at }
{
    if !has {
        return Some(None);
    }
    let to = uleb(cursor)?;
    if to < units { Some(Some(to)) } else { None }
}

/// A list of handlers, where they hold.
#[tactic(auto, unfolding(pi_format::specs::Rules::CodeItems::handler_list))]
fn list(
    alloc: Global,
    file: &[u8],
    units: u32,
    cursor: &mut Cursor<'_>,
) -> Result<Option<HandlerList>, AllocError>
    requires header { 112 ≤ length file.now }
    requires small { length cursor.old.bytes ≤ most_bytes }
    ensures exact { IfOk result (λ r. Finds (handler_list file.now units cursor.old) cursor.new r) }
    ensures same { cursor.new.bytes ≡ cursor.old.bytes }
    ensures behind { IfOk result (λ r. OnSome r (cursor.old.at < cursor.new.at)) }
    ensures begins { IfOk result (λ r. IfSome r (λ list. list.at ≡ cursor.old.at)) }
{
    let at = cursor.at() as u32;
    let Some(size) = sleb(cursor) else {
        return Ok(None);
    };
    let Some(typed) = typed(alloc, file, units, count(size), cursor)? else {
        return Ok(None);
    };
    match last(units, has_last(size), cursor) {
        None => Ok(None),
        Some(last) => Ok(Some(HandlerList { at, typed, last })),
    }
}

/// So many lists one behind the other.
fn lists_from(
    alloc: Global,
    file: &[u8],
    units: u32,
    n: u32,
    cursor: &mut Cursor<'_>,
) -> Result<Option<HandlerLists>, AllocError>
    requires header { 112 ≤ length file.now }
    requires small { length cursor.old.bytes ≤ most_bytes }
    ensures { IfOk result (λ r. r ≡ lists_from file.now units n cursor.old) }
{
    let mut lists = Vec::new(alloc);
    let mut places = Vec::new(alloc);
    for i in 0..n {
        let Some(list) = list(alloc, file, units, cursor)? else {
            return Ok(None);
        };
        places.push(list.at)?;
        lists.push(list)?;
    }
    Ok(Some(HandlerLists::new(lists, places)))
}

/// The lists at a place: their number, then the lists.
#[tactic(auto, unfolding(pi_format::specs::Rules::CodeItems::handler_lists))]
pub(crate) fn lists(
    alloc: Global,
    file: &[u8],
    units: u32,
    begin: usize,
) -> Result<Option<HandlerLists>, AllocError>
    requires header { 112 ≤ length file.now }
    requires small { length file.now ≤ most_bytes }
    requires inside { begin ≤ length file.now }
    ensures { IfOk result (λ r. r ≡ handler_lists file.now units begin) }
{
    let mut cursor = Cursor::new(file, begin);
    match uleb(&mut cursor) {
        None => Ok(None),
        Some(n) => lists_from(alloc, file, units, n, &mut cursor),
    }
}
