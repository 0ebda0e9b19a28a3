// Operands of an instruction, token by token.

ghost use Rattle.std.specs.Prelude.{◌≡◌};
ghost use Rattle.std.specs.Bool.{then_some};
ghost use Rattle.pi_asmtext.specs.declared.state.State.TheVariants.{Operands};
ghost use Rattle.pi_asmtext.specs.Steps.{first_operand, first_spot, operand_next, item_next, after_next, spot_next};

use crate::forms::{Form, Item, Kind, Word, is_text, is_word};
use crate::state::{Place, Spot, State};

fn first_operand(form: Form) -> Option<Spot>
    ensures { result ≡ first_operand form }
{
    match form {
        Form::Nothing => None,
        Form::One(a) => Some(Spot::Operand(a, Form::Nothing)),
        Form::Two(a, b) => Some(Spot::Operand(a, Form::One(b))),
        Form::Three(a, b, c) => Some(Spot::Operand(a, Form::Two(b, c))),
    }
}

/// What is wanted behind the name of an instruction with those operands.
pub(crate) fn first_spot(form: Form) -> Spot
    ensures { result ≡ first_spot form }
{
    first_operand(form).unwrap_or(Spot::After(form))
}

fn at_spot(is: bool, next: Spot) -> Option<State>
    ensures { result ≡ then_some is (Operands next) }
{
    is.then_some(State::Operands(next))
}

fn operand_next(kind: Kind, form: Form, units: &[u16]) -> Option<State>
    ensures { result ≡ operand_next kind form units.now }
{
    match kind {
        Kind::Word(word) => at_spot(is_word(word, units), Spot::After(form)),
        Kind::Range => at_spot(is_text(units, "{"), Spot::RangeFirst(form)),
        Kind::List(item) => at_spot(is_text(units, "{"), Spot::ListFirst(item, form)),
    }
}

fn item_next(item: Item, form: Form, units: &[u16]) -> Option<State>
    ensures { result ≡ item_next item form units.now }
{
    match item {
        Item::One(word) => at_spot(is_word(word, units), Spot::ListMore(item, form)),
        Item::Pair => at_spot(is_word(Word::Number, units), Spot::PairLabel(form)),
    }
}

fn after_next(form: Form, units: &[u16]) -> Option<State>
    ensures { result ≡ after_next form units.now }
{
    if !is_text(units, ",") {
        return None;
    }
    Some(State::Operands(first_operand(form)?))
}

/// What is wanted behind a token among the operands.
pub(crate) fn spot_next(spot: Spot, units: &[u16]) -> Option<State>
    ensures { result ≡ spot_next spot units.now }
{
    match spot {
        Spot::Operand(kind, form) => operand_next(kind, form, units),
        Spot::After(form) => after_next(form, units),
        Spot::RangeFirst(form) => at_spot(is_word(Word::Register, units), Spot::RangeDots(form)),
        Spot::RangeDots(form) => at_spot(is_text(units, ".."), Spot::RangeLast(form)),
        Spot::RangeLast(form) => at_spot(is_word(Word::Register, units), Spot::RangeClose(form)),
        Spot::RangeClose(form) => at_spot(is_text(units, "}"), Spot::After(form)),
        Spot::ListFirst(_, form) if is_text(units, "}") => Some(State::Operands(Spot::After(form))),
        Spot::ListMore(_, form) if is_text(units, "}") => Some(State::Operands(Spot::After(form))),
        Spot::ListMore(item, form) => at_spot(is_text(units, ","), Spot::ListItem(item, form)),
        Spot::ListFirst(item, form) | Spot::ListItem(item, form) => item_next(item, form, units),
        Spot::PairLabel(form) => {
            let more = Spot::ListMore(Item::Pair, form);
            at_spot(is_word(Word::Label, units), more)
        }
    }
}
