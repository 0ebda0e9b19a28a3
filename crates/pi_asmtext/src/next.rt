// What is wanted next, behind a token and behind a line's end.

ghost use Rattle.std.specs.Prelude.{◌≡◌};
ghost use Rattle.pi_asmtext.specs.Derivatives.{may_end};
ghost use Rattle.pi_asmtext.specs.Checks.{token_test};
ghost use Rattle.pi_asmtext.specs.Rest.{rest_of};
ghost use Rattle.pi_asmtext.specs.Steps.{tries_next, methods_next, fields_next, members_next, or_tries, body_next, place_next, is_wanted, want_next, next_of, end_of};
ghost use Rattle.pi_asmtext.specs.declared.forms.Word.TheVariants.{Desc};
ghost use Rattle.pi_asmtext.specs.Symbols.{Value, Catch};

use crate::forms::{Form, Word, form_of, is_text, is_word};
use crate::member::{class_word, field_next, flag_of, method_next};
use crate::operand::{first_spot, spot_next};
use crate::state::{FieldSpot, MethodSpot, Place, Spot, State, Want};

fn tries_next(units: &[u16]) -> Option<State>
    ensures { result ≡ tries_next units.now }
{
    if is_text(units, "try") {
        Some(State::Line(Want::From, Place::Tries))
    } else {
        is_text(units, "end").then_some(State::Line(Want::End, Place::Methods))
    }
}

fn methods_next(units: &[u16]) -> Option<State>
    ensures { result ≡ methods_next units.now }
{
    if is_text(units, "method") {
        Some(State::Method(MethodSpot::Start))
    } else {
        is_text(units, "end").then_some(State::Line(Want::End, Place::Classes))
    }
}

fn fields_next(units: &[u16]) -> Option<State>
    ensures { result ≡ fields_next units.now }
{
    if is_text(units, "field") {
        Some(State::Field(FieldSpot::Start))
    } else {
        methods_next(units)
    }
}

fn members_next(units: &[u16]) -> Option<State>
    ensures { result ≡ members_next units.now }
{
    if is_text(units, "implements") {
        Some(State::Line(Want::Desc, Place::Members))
    } else {
        fields_next(units)
    }
}

fn body_next(units: &[u16]) -> Option<State>
    ensures { result ≡ body_next units.now }
{
    if is_word(Word::Label, units) {
        return Some(State::Line(Want::End, Place::Body));
    }
    match form_of(units) {
        Some(form) => Some(State::Operands(first_spot(form))),
        None => tries_next(units),
    }
}

fn place_next(place: Place, units: &[u16]) -> Option<State>
    ensures { result ≡ place_next place units.now }
{
    match place {
        Place::Classes => is_text(units, "class").then_some(State::Class),
        Place::Super => {
            is_text(units, "super").then_some(State::Line(Want::Desc, Place::Members))
        }
        Place::Members => members_next(units),
        Place::Fields => fields_next(units),
        Place::Methods => methods_next(units),
        Place::Body => body_next(units),
        Place::Tries => tries_next(units),
    }
}

fn is_value(units: &[u16]) -> bool
    ensures { result ≡ token_test Value units.now }
{
    let word = is_text(units, "true") || is_text(units, "false") || is_text(units, "null");
    is_word(Word::Number, units) || is_word(Word::Text, units) || is_word(Word::Desc, units) || word
}

fn is_caught(units: &[u16]) -> bool
    ensures { result ≡ token_test Catch units.now }
{
    is_text(units, "any") || is_word(Word::Desc, units)
}

fn is_wanted(want: Want, units: &[u16]) -> bool
    ensures { result ≡ is_wanted want units.now }
{
    match want {
        Want::End => false,
        Want::Desc => is_word(Word::Desc, units),
        Want::Value => is_value(units),
        Want::Proto | Want::ProtoRegs => is_word(Word::Proto, units),
        Want::Regs => is_text(units, "regs"),
        Want::Number => is_word(Word::Number, units),
        Want::From | Want::To | Want::Handler => is_word(Word::Label, units),
        Want::Catch => is_caught(units),
    }
}

fn want_next(want: Want) -> Want
    ensures { result ≡ want_next want }
{
    match want {
        Want::ProtoRegs => Want::Regs,
        Want::Regs => Want::Number,
        Want::From => Want::To,
        Want::To => Want::Catch,
        Want::Catch => Want::Handler,
        _ => Want::End,
    }
}

impl State {
    /// What is wanted behind a token; None where it is not one that is wanted.
    pub fn next(self, units: &[u16]) -> Option<State>
        ensures { result ≡ next_of self units.now }
    {
        match self {
            State::At(place) => place_next(place, units),
            State::Line(want, place) => {
                is_wanted(want, units).then_some(State::Line(want_next(want), place))
            }
            State::Class => class_word(flag_of(units), units),
            State::Field(spot) => field_next(spot, flag_of(units), units),
            State::Method(spot) => method_next(spot, flag_of(units), units),
            State::Operands(spot) => spot_next(spot, units),
        }
    }

    /// What is wanted behind a line's end; None where more is wanted on the line.
    pub fn end(self) -> Option<State>
        ensures { result ≡ end_of self }
    {
        match self {
            State::Line(Want::End, place) => Some(State::At(place)),
            State::Field(
                FieldSpot::PlainBoth
                | FieldSpot::StaticBoth
                | FieldSpot::StaticsBoth
                | FieldSpot::Typed,
            ) => Some(State::At(Place::Fields)),
            State::Operands(Spot::After(Form::Nothing)) => Some(State::At(Place::Body)),
            _ => None,
        }
    }

    /// Whether the text may end.
    pub fn may_end(self) -> bool
        ensures { result ≡ may_end (rest_of self) }
    {
        matches!(self, State::At(Place::Classes))
    }
}
