// Codes: their lines, and the entries of their handler tables in the order of search.

ghost use Rattle.std.specs.Prelude.{◌≡◌, ◌+◌, ◌^◌, ◌<◌, true, is_some, None, ◌++◌, ◌∷◌, [], map, IfOk, OnOk};
ghost use Rattle.std.specs.List.{All};
ghost use Rattle.pi_bytes.specs.Numbers.{word_end};
ghost use Rattle.pi_format.specs.Tables.{count_at, type_ids};
ghost use Rattle.pi_format.specs.Rules.CodeItems.{code_head, code_lies, code_lists, ranges_hold};
ghost use Rattle.pi_format.specs.Rules.CodeItems.{Handler as Handled};
ghost use Rattle.pi_format.specs.Rules.Pieces.{index_holds, first_insn, code_walk};
ghost use Rattle.pi_format.specs.Says.Codes.{line_of, lines_of, typed_catch, last_catch, catches_at, catches_of, code_at};
ghost use Rattle.pi_dexcode.specs.Whole.{AreWhole, NamesTypes, AllNameTypes, NamesIndex};

use crate::insns::insn_of;
use crate::named::Named;
use pi_codeitem::{
    CodeHead, Handler, HandlerList, HandlerLists, Piece, TryRange, Walk, What, handlers, head,
    lists_at, ranges_stand, try_range, units, walk,
};
use pi_model::describe::{Catch, Code, Insns, Line, Tries};
use std::alloc::{AllocError, Global};

/// The unit behind a range.
fn end(range: &TryRange) -> u32
    requires { range.now.from + range.now.size < 2 ^ 32 }
    ensures { result ≡ range.now.from + range.now.size }
{
    range.from + range.size as u32
}

/// Adds the entry of a range for a typed handler.
fn add_typed(
    names: &Named<'_>,
    tries: &mut Tries,
    range: &TryRange,
    handler: &Handler,
) -> Result<(), AllocError>
    requires ends { range.now.from + range.now.size < 2 ^ 32 }
    requires there { handler.now.ty < count_at names.now.file type_ids }
    ensures { OnOk result (tries.new ≡ tries.old ++ typed_catch names.now range.now handler.now ∷ []) }
{
    tries.push(Catch {
        from: range.from,
        to: end(range),
        ty: Some(names.type_name(handler.ty)),
        at: handler.to,
    })
}

/// Adds the entries of a range for typed handlers.
#[tactic(auto, using(pi_format::proofs::Loops::map_go, pi_format::proofs::Loops::map_end))]
fn add_all_typed(
    names: &Named<'_>,
    tries: &mut Tries,
    range: &TryRange,
    typed: &[Handler],
) -> Result<(), AllocError>
    requires ends { range.now.from + range.now.size < 2 ^ 32 }
    requires types { All (λ (h : Handled). h.ty < count_at names.now.file type_ids) typed.now }
    ensures { OnOk result (tries.new ≡ tries.old ++ map (typed_catch names.now range.now) typed.now) }
{
    for i in 0..typed.len() {
        add_typed(names, tries, range, &typed[i])?;
    }
    Ok(())
}

/// Adds the entry of a range for the last handler, where there is one.
fn add_last(tries: &mut Tries, range: &TryRange, last: Option<u32>) -> Result<(), AllocError>
    requires { range.now.from + range.now.size < 2 ^ 32 }
    ensures { OnOk result (tries.new ≡ tries.old ++ last_catch range.now last) }
{
    match last {
        None => Ok(()),
        Some(at) => tries.push(Catch {
            from: range.from,
            to: end(range),
            ty: None,
            at,
        }),
    }
}

/// Adds the entries of a range: those of the typed handlers of its list, then that of the last one.
fn add_list(
    names: &Named<'_>,
    tries: &mut Tries,
    range: &TryRange,
    list: &HandlerList,
) -> Result<(), AllocError>
    requires ends { range.now.from + range.now.size < 2 ^ 32 }
    requires types { NamesTypes (count_at names.now.file type_ids) list.now }
    ensures { OnOk result (tries.new ≡ tries.old ++ (map (typed_catch names.now range.now) list.now.typed ++ last_catch range.now list.now.last)) }
{
    add_all_typed(names, tries, range, list.typed.as_slice())?;
    add_last(tries, range, list.last)
}

/// Adds the entries of a range by its number.
#[tactic(auto, using(crate::proofs::Catches::catches_found))]
fn add_range(
    names: &Named<'_>,
    tries: &mut Tries,
    at: usize,
    head: &CodeHead,
    lists: &HandlerLists,
    k: usize,
) -> Result<(), AllocError>
    requires small { at < word_end }
    requires lies { code_lies names.now.file at ≡ true }
    requires head { head.now ≡ code_head names.now.file at }
    requires hold { ranges_hold names.now.file at head.now ≡ true }
    requires counted { k < head.now.tries }
    requires types { AllNameTypes (count_at names.now.file type_ids) lists.now }
    ensures { OnOk result (tries.new ≡ tries.old ++ catches_at names.now at head.now lists.now k) }
{
    let range = try_range(names.raw().file(), at, k);
    let place = lists_at(at, head) + range.handlers as usize;
    match lists.find(place as u32) {
        None => Ok(()),
        Some(list) => add_list(names, tries, &range, list),
    }
}

/// The entries of all ranges, in the order of search.
#[tactic(auto, using(crate::proofs::Listing::flat_go, crate::proofs::Listing::flat_end, crate::proofs::Listing::flat_begin))]
fn catches(
    alloc: Global,
    names: &Named<'_>,
    at: usize,
    head: &CodeHead,
    lists: &HandlerLists,
) -> Result<Tries, AllocError>
    requires small { at < word_end }
    requires lies { code_lies names.now.file at ≡ true }
    requires head { head.now ≡ code_head names.now.file at }
    requires lists { code_lists names.now.file at ≡ Some lists.now }
    ensures { IfOk result (λ tries. tries ≡ catches_of names.now at head.now (Some lists.now)) }
{
    // where there are lists, the ranges hold
    ranges_stand();
    let mut tries = Tries::new(alloc);
    for k in 0..head.tries as usize {
        add_range(names, &mut tries, at, head, lists, k)?;
    }
    Ok(tries)
}

/// Adds the line of a piece, where it is an instruction.
fn add_line(
    alloc: Global,
    names: &Named<'_>,
    walk: &Walk<'_>,
    lines: &mut Insns,
    piece: &Piece<'_>,
) -> Result<(), AllocError>
    requires whole { AreWhole walk.now.pieces }
    requires index { NamesIndex names.now.file piece.now }
    ensures { OnOk result (lines.new ≡ lines.old ++ line_of names.now walk.now.pieces piece.now) }
{
    match &piece.what {
        What::Payload(_) => Ok(()),
        What::Instruction(insn) => lines.push(Line {
            at: piece.at,
            units: piece.units,
            insn: insn_of(alloc, names, walk, piece.at, &insn.body)?,
        }),
    }
}

/// The lines of a walk.
#[tactic(auto, using(crate::proofs::Listing::rest_go, crate::proofs::Listing::rest_end))]
fn lines(alloc: Global, names: &Named<'_>, walk: &Walk<'_>) -> Result<Insns, AllocError>
    requires whole { AreWhole walk.now.pieces }
    requires indices { All (NamesIndex names.now.file) walk.now.pieces }
    ensures { IfOk result (λ lines. lines ≡ lines_of names.now walk.now.pieces) }
{
    // most pieces are instructions: room for all keeps the list from growing by doubling
    let mut lines = Insns::from_vec(Vec::with_capacity(alloc, walk.len())?);
    for k in 0..walk.len() {
        add_line(alloc, names, walk, &mut lines, &walk.piece(k))?;
    }
    Ok(lines)
}

/// The code of the code item at an offset, which holds.
#[tactic(auto, unfolding(pi_format::specs::Says::Codes::code_at))]
pub fn code(alloc: Global, names: &Named<'_>, at: usize) -> Result<Code, AllocError>
    requires small { at < word_end }
    requires lies { code_lies names.now.file at ≡ true }
    requires lists { is_some (code_lists names.now.file at) ≡ true }
    requires indices { first_insn (λ a i. index_holds names.now.file i.body) (code_walk names.now.file at).pieces ≡ None }
    ensures { IfOk result (λ code. code ≡ code_at names.now at) }
{
    let file = names.raw().file();
    let head = head(file, at);
    let units = units(alloc, file, at)?;
    let walk = walk(alloc, units.as_slice())?;
    let insns = lines(alloc, names, &walk)?;
    let tries = match handlers(alloc, file, at)? {
        None => Tries::new(alloc),
        Some(lists) => catches(alloc, names, at, &head, &lists)?,
    };
    Ok(Code {
        regs: head.registers,
        ins: head.ins,
        outs: head.outs,
        units: head.units,
        insns,
        tries,
    })
}
