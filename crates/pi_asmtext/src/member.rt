// Declarations token by token: the first lines of classes and methods, and the lines of fields.

ghost use Rattle.std.specs.Prelude.{◌≡◌};
ghost use Rattle.pi_asmtext.specs.Symbols.{object};
ghost use Rattle.pi_asmtext.specs.Checks.{is_word};
ghost use Rattle.pi_asmtext.specs.Steps.{is_body_flag, flag_of, class_word, field_flag, pick, field_word, field_next, method_flag, method_named, method_typed, method_word, method_next};

use crate::forms::{Word, is_text, is_word};
use crate::state::{FieldSpot, Flag, MethodSpot, Place, State, Want};

fn is_body_flag(units: &[u16]) -> bool
    ensures { result ≡ is_body_flag units.now }
{
    let visible = is_text(units, "public") || is_text(units, "private");
    let other = is_text(units, "final") || is_text(units, "interface");
    visible || is_text(units, "protected") || other || is_text(units, "constructor")
}

/// Which word of FLAGS a token is.
pub(crate) fn flag_of(units: &[u16]) -> Option<Flag>
    ensures { result ≡ flag_of units.now }
{
    if is_text(units, "static") {
        Some(Flag::Static)
    } else if is_text(units, "native") || is_text(units, "abstract") {
        Some(Flag::Bodiless)
    } else if is_body_flag(units) {
        Some(Flag::Other)
    } else {
        None
    }
}

/// What is wanted behind a token of the first line of a class.
pub(crate) fn class_word(flag: Option<Flag>, units: &[u16]) -> Option<State>
    ensures { result ≡ class_word flag units.now }
{
    if flag.is_some() {
        return Some(State::Class);
    }
    if is_text(units, "Ljava/lang/Object;") {
        Some(State::Line(Want::End, Place::Members))
    } else {
        is_word(Word::Desc, units).then_some(State::Line(Want::End, Place::Super))
    }
}

fn field_flag(flag: Flag, spot: FieldSpot) -> Option<State>
    ensures { result ≡ field_flag flag spot }
{
    match (flag, spot) {
        (Flag::Static, FieldSpot::Start | FieldSpot::Plain) => {
            Some(State::Field(FieldSpot::Static))
        }
        (_, FieldSpot::Start | FieldSpot::Plain) => Some(State::Field(FieldSpot::Plain)),
        (_, FieldSpot::Static | FieldSpot::Statics) => Some(State::Field(FieldSpot::Statics)),
        _ => None,
    }
}

fn pick(name: bool, kind: bool, both: State, named: State, typed: State) -> Option<State>
    ensures { result ≡ pick name kind both named typed }
{
    if name {
        Some(if kind { both } else { named })
    } else {
        kind.then_some(typed)
    }
}

fn field_word(spot: FieldSpot, units: &[u16]) -> Option<State>
    ensures { result ≡ field_word spot units.now }
{
    let name = is_word(Word::Name, units);
    let desc = is_word(Word::Desc, units);
    let named = State::Line(Want::Desc, Place::Fields);
    let typed = State::Line(Want::End, Place::Fields);
    let valued = State::Line(Want::Value, Place::Fields);
    let at = |spot: FieldSpot| State::Field(spot);
    match spot {
        FieldSpot::Start => name.then_some(named),
        FieldSpot::Plain => pick(name, desc, at(FieldSpot::PlainBoth), named, typed),
        FieldSpot::Static => {
            let (both, named) = (at(FieldSpot::StaticBoth), at(FieldSpot::Named));
            pick(name, desc, both, named, typed)
        }
        FieldSpot::Statics => {
            let (both, named) = (at(FieldSpot::StaticsBoth), at(FieldSpot::Named));
            pick(name, desc, both, named, at(FieldSpot::Typed))
        }
        FieldSpot::PlainBoth => desc.then_some(typed),
        FieldSpot::Typed => is_text(units, "=").then_some(valued),
        FieldSpot::StaticsBoth if is_text(units, "=") => Some(valued),
        FieldSpot::Named | FieldSpot::StaticBoth | FieldSpot::StaticsBoth => {
            desc.then_some(at(FieldSpot::Typed))
        }
    }
}

/// What is wanted behind a token of the line of a field.
pub(crate) fn field_next(spot: FieldSpot, flag: Option<Flag>, units: &[u16]) -> Option<State>
    ensures { result ≡ field_next spot flag units.now }
{
    match flag {
        Some(flag) => field_flag(flag, spot),
        None => field_word(spot, units),
    }
}

fn method_flag(flag: Flag, spot: MethodSpot) -> MethodSpot
    ensures { result ≡ method_flag flag spot }
{
    match (flag, spot) {
        (Flag::Bodiless, MethodSpot::Start | MethodSpot::Body) => MethodSpot::Bodiless,
        (_, MethodSpot::Start | MethodSpot::Body) => MethodSpot::Body,
        _ => MethodSpot::Bodilesses,
    }
}

fn method_named(spot: MethodSpot) -> State
    ensures { result ≡ method_named spot }
{
    match spot {
        MethodSpot::Start | MethodSpot::Body => State::Line(Want::ProtoRegs, Place::Body),
        MethodSpot::Bodiless | MethodSpot::Bodilesses => State::Line(Want::Proto, Place::Methods),
    }
}

fn method_typed(spot: MethodSpot) -> Option<State>
    ensures { result ≡ method_typed spot }
{
    match spot {
        MethodSpot::Start => None,
        MethodSpot::Body | MethodSpot::Bodiless => Some(State::Line(Want::Regs, Place::Body)),
        MethodSpot::Bodilesses => Some(State::Line(Want::End, Place::Methods)),
    }
}

/// What is wanted behind a token of the first line of a method.
pub(crate) fn method_next(spot: MethodSpot, flag: Option<Flag>, units: &[u16]) -> Option<State>
    ensures { result ≡ method_next spot flag units.now }
{
    if let Some(flag) = flag {
        return Some(State::Method(method_flag(flag, spot)));
    }
    if is_word(Word::Name, units) {
        Some(method_named(spot))
    } else if is_word(Word::Proto, units) {
        method_typed(spot)
    } else {
        None
    }
}
