// What is known of a text, unit by unit from its end: its length, its first unit, and what its units name or describe.
// docs/dex-format.md states the names and descriptors.

ghost use Rattle.std.specs.Prelude.{◌≡◌, ◌<◌, ◌∷◌, [], ℕ, List, true, false, ◌+◌, length};
ghost use Rattle.pi_bytes.specs.Numbers.{word_end};
ghost use Rattle.pi_format.specs.Rules.Descriptors.{is_mark, is_class_name, is_primitive, is_simple, is_descriptor, is_member_name};
ghost use Rattle.pi_dexids.specs.Tails.{deeper, depth_of, tail_of};

/// What is known of a text.
#[derive(Clone, Copy)]
pub struct Tail {
    /// How many units it has.
    pub units: u32,
    /// The first of them, 0 where there is none.
    pub first: u16,
    /// Whether none is a `.`, `;`, `[` or `/`.
    pub is_plain: bool,
    /// Whether one is a `<`.
    pub has_angle: bool,
    /// Whether it ends the name of a class of which a part has begun.
    pub ends_name: bool,
    /// Whether it is the name of a class and a `;`.
    pub is_name: bool,
    /// How many `[` stand before a primitive or a class, if at most 255 do.
    pub depth: Option<u8>,
}

/// Whether a unit is `.`, `;`, `[` or `/`.
fn marks(unit: u16) -> bool
    ensures { result ≡ is_mark unit }
{
    unit == 46 || unit == 59 || unit == 91 || unit == 47
}

/// Whether a unit is Z, B, S, C, I or J.
fn is_primitive(unit: u16) -> bool
    ensures { result ≡ is_primitive unit }
{
    unit == 90 || unit == 66 || unit == 83 || unit == 67 || unit == 73 || unit == 74
}

/// The text without a unit.
#[tactic(auto, unfolding(pi_format::specs::Rules::Descriptors::is_class_name))]
pub fn no_unit() -> Tail
    ensures { result ≡ tail_of [] }
{
    Tail {
        units: 0,
        first: 0,
        is_plain: true,
        has_angle: false,
        ends_name: false,
        is_name: false,
        depth: None,
    }
}

/// Whether a unit and a text end the name of a class of which a part has begun.
#[tactic(auto, using(crate::proofs::Grammar::last_of_name, crate::proofs::Grammar::slash_in_name, crate::proofs::Grammar::unit_in_name))]
fn ends_name(unit: u16, rest: Tail) -> bool
    ensures { (us : List ℕ) → rest ≡ tail_of us → result ≡ is_class_name true (unit ∷ us) }
{
    if rest.units == 0 {
        return unit == 59;
    }
    if unit == 47 {
        return rest.is_name;
    }
    !marks(unit) && rest.ends_name
}

/// Whether they are the name of a class and a `;`.
#[tactic(auto, using(crate::proofs::Grammar::no_name, crate::proofs::Grammar::name_begins, crate::proofs::Grammar::mark_before_name))]
fn is_name(unit: u16, rest: Tail) -> bool
    ensures { (us : List ℕ) → rest ≡ tail_of us → result ≡ is_class_name false (unit ∷ us) }
{
    rest.units > 0 && !marks(unit) && rest.ends_name
}

/// Whether they are a primitive or a class.
fn is_simple(unit: u16, rest: Tail) -> bool
    ensures { (us : List ℕ) → rest ≡ tail_of us → result ≡ is_simple (unit ∷ us) }
{
    if rest.units == 0 {
        return is_primitive(unit);
    }
    unit == 76 && rest.is_name
}

/// One `[` more.
fn deeper(depth: Option<u8>) -> Option<u8>
    ensures { result ≡ deeper depth }
{
    match depth {
        Some(n) if n < 255 => Some(n + 1),
        _ => None,
    }
}

/// How many `[` stand in a unit and a text before a primitive or a class.
fn depth(unit: u16, rest: Tail) -> Option<u8>
    ensures { (us : List ℕ) → rest ≡ tail_of us → result ≡ depth_of (unit ∷ us) }
{
    if unit == 91 {
        return deeper(rest.depth);
    }
    if is_simple(unit, rest) {
        return Some(0);
    }
    None
}

/// What is known of a unit and a text.
pub fn with_unit(unit: u16, rest: Tail) -> Tail
    requires { rest.units + 1 < word_end }
    ensures { (us : List ℕ) → rest ≡ tail_of us → result ≡ tail_of (unit ∷ us) }
{
    Tail {
        units: rest.units + 1,
        first: unit,
        is_plain: !marks(unit) && rest.is_plain,
        has_angle: unit == 60 || rest.has_angle,
        ends_name: ends_name(unit, rest),
        is_name: is_name(unit, rest),
        depth: depth(unit, rest),
    }
}

/// What is known of a text, found from its last unit to its first.
pub fn tail_of(units: &[u16]) -> Tail
    requires { length units.now < word_end }
    ensures { result ≡ tail_of units.now }
{
    let mut tail = no_unit();
    for done in 0..units.len() {
        tail = with_unit(units[units.len() - 1 - done], tail);
    }
    tail
}

/// Whether a text is a descriptor.
#[tactic(auto, using(crate::proofs::Grammar::descriptor_by))]
pub fn is_descriptor(tail: Tail) -> bool
    ensures { (us : List ℕ) → tail ≡ tail_of us → result ≡ is_descriptor us }
{
    (tail.units == 1 && tail.first == 86) || tail.depth.is_some()
}

/// Whether it is the name of a member: not empty and without marks.
pub fn is_member_name(tail: Tail) -> bool
    ensures { (us : List ℕ) → tail ≡ tail_of us → result ≡ is_member_name us }
{
    tail.units > 0 && tail.is_plain
}
