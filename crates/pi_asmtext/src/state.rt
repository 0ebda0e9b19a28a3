// What the grammar wants next, as far as a text is read.

use crate::forms::{Form, Item, Kind};

/// Where the lines that follow stand.
#[derive(Clone, Copy)]
pub(crate) enum Place {
    Classes,
    Super,
    Members,
    Fields,
    Methods,
    Body,
    Tries,
}

/// What a line wants up to its end, by the first word of it.
#[derive(Clone, Copy)]
pub(crate) enum Want {
    End,
    Desc,
    Value,
    Proto,
    ProtoRegs,
    Regs,
    Number,
    From,
    To,
    Catch,
    Handler,
}

/// A word of FLAGS: static, one with which a method has no body, or another.
#[derive(Clone, Copy)]
pub(crate) enum Flag {
    Static,
    Bodiless,
    Other,
}

/// How far a line of a field is read. The last flag may be its name, so up to the name or the type it is kept whether there
/// is a static among the flags, and whether one stands before the last.
#[derive(Clone, Copy)]
pub(crate) enum FieldSpot {
    Start,
    /// Flags without static.
    Plain,
    /// Flags whose last is the only static.
    Static,
    /// Flags with a static before the last.
    Statics,
    /// The name of a field with static.
    Named,
    /// Behind flags, a name that may be the type of a field that the last of them names.
    PlainBoth,
    StaticBoth,
    StaticsBoth,
    /// The type of a field with static.
    Typed,
}

/// How far the first line of a method is read.
#[derive(Clone, Copy)]
pub(crate) enum MethodSpot {
    Start,
    /// Flags of a method with a body.
    Body,
    /// Flags whose last is the only native or abstract.
    Bodiless,
    /// Flags with native or abstract before the last.
    Bodilesses,
}

/// How far the operands of an instruction are read; the form is what follows.
#[derive(Clone, Copy)]
pub(crate) enum Spot {
    Operand(Kind, Form),
    After(Form),
    RangeFirst(Form),
    RangeDots(Form),
    RangeLast(Form),
    RangeClose(Form),
    ListFirst(Item, Form),
    ListMore(Item, Form),
    ListItem(Item, Form),
    PairLabel(Form),
}

/// What is wanted next.
#[derive(Clone, Copy)]
pub(crate) enum State {
    /// A line, or at the end of the classes the end of the text.
    At(Place),
    /// The rest of a line, and lines behind it.
    Line(Want, Place),
    /// What follows the word class and flags.
    Class,
    Field(FieldSpot),
    Method(MethodSpot),
    Operands(Spot),
}
