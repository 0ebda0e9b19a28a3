// Instructions with names in place of indices, addresses in place of distances, and the data that they point at.

ghost use Rattle.std.specs.Prelude.{◌≡◌, ◌<◌, ℕ, List, true, IfOk};
ghost use Rattle.pi_format.specs.Rules.Pieces.{Piece, index_holds, payload_of};
ghost use Rattle.pi_format.specs.Says.Names;
ghost use Rattle.pi_format.specs.Says.Insns.{cases_of, items_of, width_of, insn_of};
ghost use Rattle.pi_dexcode.specs.Groups.{is_jump, is_of_field, is_of_name};
ghost use Rattle.pi_dexcode.specs.Whole.{AreWhole};

use crate::data::{cases, items, width};
use crate::named::Named;
use crate::numbers::target;
use crate::regs::regs_of;
use pi_codeitem::Walk;
use pi_insn::RawBody;
use pi_model::insn::{Cases, Insn, Items};
use std::alloc::{AllocError, Global};

/// The switch at an address.
fn switch(alloc: Global, walk: &Walk<'_>, at: u32, a: u16, dist: i32) -> Result<Insn, AllocError>
    requires { AreWhole walk.now.pieces }
    ensures { IfOk result (λ insn. insn ≡ Insn.Switch a (cases_of at (payload_of walk.now.pieces at dist))) }
{
    match walk.payload_of(at, dist) {
        Some(payload) => Ok(Insn::Switch {
            a,
            cases: cases(alloc, at, &payload)?,
        }),
        None => Ok(Insn::Switch {
            a,
            cases: Cases::new(alloc),
        }),
    }
}

/// The fill-array-data at an address.
fn fill_array(
    alloc: Global,
    walk: &Walk<'_>,
    at: u32,
    a: u16,
    dist: i32,
) -> Result<Insn, AllocError>
    requires { AreWhole walk.now.pieces }
    ensures { IfOk result (λ insn. insn ≡ Insn.FillArray a (width_of (payload_of walk.now.pieces at dist)) (items_of (payload_of walk.now.pieces at dist))) }
{
    match walk.payload_of(at, dist) {
        Some(payload) => Ok(Insn::FillArray {
            a,
            width: width(&payload),
            items: items(alloc, &payload)?,
        }),
        None => Ok(Insn::FillArray {
            a,
            width: 0,
            items: Items::new(alloc),
        }),
    }
}

/// A jump, whose target is an address.
#[tactic(auto, unfolding(pi_format::specs::Says::Insns::insn_of))]
fn jump(at: u32, body: &RawBody) -> Insn
    requires { is_jump body.now ≡ true }
    ensures { (n : Names.Named) (pieces : List Piece) → result ≡ insn_of n pieces at body.now }
{
    match *body {
        RawBody::Goto { dist } => Insn::Goto {
            to: target(at, dist),
        },
        RawBody::If { cond, a, b, dist } => Insn::If {
            cond,
            a,
            b,
            to: target(at, dist),
        },
        RawBody::IfZ { cond, a, dist } => Insn::IfZ {
            cond,
            a,
            to: target(at, dist),
        },
        _ => unreachable!(),
    }
}

/// An instruction on a field.
#[tactic(auto, unfolding(pi_format::specs::Says::Insns::insn_of), using(std::proofs::lemmas::Bool::Decides::nat_tests))]
fn of_field(names: &Named<'_>, body: &RawBody) -> Insn
    requires field { is_of_field body.now ≡ true }
    requires indices { index_holds names.now.file body.now ≡ true }
    ensures { (pieces : List Piece) (at : ℕ) → result ≡ insn_of names.now pieces at body.now }
{
    match *body {
        RawBody::Iget { kind, a, b, f } => Insn::Iget {
            kind,
            a,
            b,
            f: names.field_ref(f),
        },
        RawBody::Iput { kind, a, b, f } => Insn::Iput {
            kind,
            a,
            b,
            f: names.field_ref(f),
        },
        RawBody::Sget { kind, a, f } => Insn::Sget {
            kind,
            a,
            f: names.field_ref(f),
        },
        RawBody::Sput { kind, a, f } => Insn::Sput {
            kind,
            a,
            f: names.field_ref(f),
        },
        _ => unreachable!(),
    }
}

/// An instruction on a string or a type.
#[tactic(auto, unfolding(pi_format::specs::Says::Insns::insn_of), using(std::proofs::lemmas::Bool::Decides::nat_tests))]
fn of_name(names: &Named<'_>, body: &RawBody) -> Insn
    requires name { is_of_name body.now ≡ true }
    requires indices { index_holds names.now.file body.now ≡ true }
    ensures { (pieces : List Piece) (at : ℕ) → result ≡ insn_of names.now pieces at body.now }
{
    match *body {
        RawBody::ConstString { a, s } => Insn::ConstString {
            a,
            s: names.string_name(s),
        },
        RawBody::ConstClass { a, t } => Insn::ConstClass {
            a,
            t: names.type_name(t),
        },
        RawBody::CheckCast { a, t } => Insn::CheckCast {
            a,
            t: names.type_name(t),
        },
        RawBody::InstanceOf { a, b, t } => Insn::InstanceOf {
            a,
            b,
            t: names.type_name(t),
        },
        RawBody::NewInstance { a, t } => Insn::NewInstance {
            a,
            t: names.type_name(t),
        },
        RawBody::NewArray { a, b, t } => Insn::NewArray {
            a,
            b,
            t: names.type_name(t),
        },
        _ => unreachable!(),
    }
}

/// The instruction at an address, among the pieces of its code.
#[tactic(auto, unfolding(pi_format::specs::Says::Insns::insn_of), using(std::proofs::lemmas::Bool::Decides::nat_tests))]
pub(crate) fn insn_of(
    alloc: Global,
    names: &Named<'_>,
    walk: &Walk<'_>,
    at: u32,
    body: &RawBody,
) -> Result<Insn, AllocError>
    requires whole { AreWhole walk.now.pieces }
    requires indices { index_holds names.now.file body.now ≡ true }
    ensures { IfOk result (λ insn. insn ≡ insn_of names.now walk.now.pieces at body.now) }
{
    Ok(match *body {
        RawBody::Nop => Insn::Nop,
        RawBody::Move { kind, a, b } => Insn::Move { kind, a, b },
        RawBody::MoveResult { k, a } => Insn::MoveResult { k, a },
        RawBody::MoveException { a } => Insn::MoveException { a },
        RawBody::ReturnVoid => Insn::ReturnVoid,
        RawBody::Return { k, a } => Insn::Return { k, a },
        RawBody::Const { a, v } => Insn::Const { a, v },
        RawBody::ConstWide { a, v } => Insn::ConstWide { a, v },
        RawBody::Monitor { a } => Insn::Monitor { a },
        RawBody::ArrayLength { a, b } => Insn::ArrayLength { a, b },
        RawBody::Throw { a } => Insn::Throw { a },
        RawBody::CmpLong { a, b, c } => Insn::CmpLong { a, b, c },
        RawBody::Aget { kind, a, b, c } => Insn::Aget { kind, a, b, c },
        RawBody::Aput { kind, a, b, c } => Insn::Aput { kind, a, b, c },
        RawBody::Unary { op, a, b } => Insn::Unary { op, a, b },
        RawBody::Binary { op, a, b, c } => Insn::Binary { op, a, b, c },
        RawBody::BinaryLit { op, a, b, v } => Insn::BinaryLit { op, a, b, v },
        RawBody::FillArray { a, dist } => fill_array(alloc, walk, at, a, dist)?,
        RawBody::Switch { a, dist } => switch(alloc, walk, at, a, dist)?,
        RawBody::Filled { t, ref regs } => Insn::Filled {
            t: names.type_name(t),
            regs: regs_of(regs),
        },
        RawBody::Invoke { how, m, ref regs } => Insn::Invoke {
            how,
            m: names.method_ref(alloc, m)?,
            regs: regs_of(regs),
        },
        RawBody::Goto { .. } | RawBody::If { .. } | RawBody::IfZ { .. } => jump(at, body),
        RawBody::Iget { .. } | RawBody::Iput { .. } | RawBody::Sget { .. } | RawBody::Sput { .. } =>
            of_field(names, body),
        RawBody::ConstString { .. }
        | RawBody::ConstClass { .. }
        | RawBody::CheckCast { .. }
        | RawBody::InstanceOf { .. }
        | RawBody::NewInstance { .. }
        | RawBody::NewArray { .. } => of_name(names, body),
    })
}
