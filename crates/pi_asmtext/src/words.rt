// Whether units spell a word of the grammar, told by one walk over them.

ghost use Rattle.std.specs.Prelude.{◌≡◌};
ghost use Rattle.pi_asmtext.specs.Derivatives.{fits, may_end};
ghost use Rattle.pi_asmtext.specs.Words.{unit_test, in_range, is_digit, is_hex, is_name_unit, is_path_unit, is_primitive};
ghost use Rattle.pi_asmtext.specs.Spelling.{rest_of, tail_spell, next_in_type, next_in_member, next_in_text, next_in_escape, next_of};

/// What is named behind the type of an operand.
#[derive(Clone, Copy)]
pub(crate) enum Member {
    Field,
    Method,
}

/// What stands behind a type.
#[derive(Clone, Copy)]
pub(crate) enum Tail {
    End,
    Params,
    Member(Member),
}

/// How far a word is spelled, by what is wanted next.
#[derive(Clone, Copy)]
pub(crate) enum Spell {
    Done,
    First(Tail),
    Type(Tail),
    Class(Tail),
    ClassMore(Tail),
    Proto,
    Params,
    Minus(Member),
    Greater(Member),
    Member(Member),
    MemberMore(Member),
    Label,
    LabelName,
    Name,
    NameMore,
    Number,
    Register,
    Digit,
    DigitMore,
    Quote,
    Text,
    Escape,
    Hex4,
    Hex3,
    Hex2,
    Hex1,
}

fn in_range(low: u16, high: u16, unit: u16) -> bool
    ensures { result ≡ in_range low high unit }
{
    low <= unit && unit <= high
}

fn is_digit(unit: u16) -> bool
    ensures { result ≡ is_digit unit }
{
    in_range(48, 57, unit)
}

fn is_hex(unit: u16) -> bool
    ensures { result ≡ is_hex unit }
{
    is_digit(unit) || in_range(97, 102, unit) || in_range(65, 70, unit)
}

fn is_name_unit(unit: u16) -> bool
    ensures { result ≡ is_name_unit unit }
{
    let letter = in_range(97, 122, unit) || in_range(65, 90, unit) || is_digit(unit);
    letter || unit == 36 || unit == 45 || unit == 95 || unit == 60 || unit == 62 || unit > 127
}

fn is_path_unit(unit: u16) -> bool
    ensures { result ≡ is_path_unit unit }
{
    is_name_unit(unit) || unit == 47
}

fn is_primitive(unit: u16) -> bool
    ensures { result ≡ is_primitive unit }
{
    matches!(unit, 86 | 90 | 66 | 83 | 67 | 73 | 74)
}

fn tail_spell(tail: Tail) -> Spell
    ensures { result ≡ tail_spell tail }
{
    match tail {
        Tail::End => Spell::Done,
        Tail::Params => Spell::Params,
        Tail::Member(member) => Spell::Minus(member),
    }
}

fn next_in_type(tail: Tail, unit: u16) -> Option<Spell>
    ensures { result ≡ next_in_type tail unit }
{
    if unit == 91 {
        Some(Spell::Type(tail))
    } else if unit == 76 {
        Some(Spell::Class(tail))
    } else {
        is_primitive(unit).then_some(tail_spell(tail))
    }
}

fn next_in_member(member: Member, unit: u16) -> Option<Spell>
    ensures { result ≡ next_in_member member unit }
{
    match member {
        Member::Field => (unit == 58).then_some(Spell::First(Tail::End)),
        Member::Method => (unit == 40).then_some(Spell::Params),
    }
}

fn next_in_text(unit: u16) -> Spell
    ensures { result ≡ next_in_text unit }
{
    match unit {
        34 => Spell::Done,
        92 => Spell::Escape,
        _ => Spell::Text,
    }
}

fn next_in_escape(unit: u16) -> Option<Spell>
    ensures { result ≡ next_in_escape unit }
{
    match unit {
        34 | 92 | 110 => Some(Spell::Text),
        117 => Some(Spell::Hex4),
        _ => None,
    }
}

impl Spell {
    /// What is wanted behind a unit; None where it is not the one that is wanted.
    fn next(self, unit: u16) -> Option<Spell>
        ensures { result ≡ next_of self unit }
    {
        match self {
            Spell::Done => None,
            Spell::First(tail) | Spell::Type(tail) => next_in_type(tail, unit),
            Spell::ClassMore(tail) if unit == 59 => Some(tail_spell(tail)),
            Spell::Class(tail) | Spell::ClassMore(tail) => {
                is_path_unit(unit).then_some(Spell::ClassMore(tail))
            }
            Spell::Proto => (unit == 40).then_some(Spell::Params),
            Spell::Params if unit == 41 => Some(Spell::First(Tail::End)),
            Spell::Params => next_in_type(Tail::Params, unit),
            Spell::Minus(member) => (unit == 45).then_some(Spell::Greater(member)),
            Spell::Greater(member) => (unit == 62).then_some(Spell::Member(member)),
            Spell::MemberMore(member) if !is_name_unit(unit) => next_in_member(member, unit),
            Spell::Member(member) | Spell::MemberMore(member) => {
                is_name_unit(unit).then_some(Spell::MemberMore(member))
            }
            Spell::Label => (unit == 58).then_some(Spell::LabelName),
            Spell::LabelName | Spell::Name | Spell::NameMore => {
                is_name_unit(unit).then_some(Spell::NameMore)
            }
            Spell::Number if unit == 45 => Some(Spell::Digit),
            Spell::Number | Spell::Digit | Spell::DigitMore => {
                is_digit(unit).then_some(Spell::DigitMore)
            }
            Spell::Register => (unit == 118).then_some(Spell::Digit),
            Spell::Quote => (unit == 34).then_some(Spell::Text),
            Spell::Text => Some(next_in_text(unit)),
            Spell::Escape => next_in_escape(unit),
            Spell::Hex4 => is_hex(unit).then_some(Spell::Hex3),
            Spell::Hex3 => is_hex(unit).then_some(Spell::Hex2),
            Spell::Hex2 => is_hex(unit).then_some(Spell::Hex1),
            Spell::Hex1 => is_hex(unit).then_some(Spell::Text),
        }
    }

    /// Whether the word may end.
    fn may_end(self) -> bool
        ensures { result ≡ may_end (rest_of self) }
    {
        matches!(self, Spell::Done | Spell::NameMore | Spell::DigitMore)
    }
}

/// Whether units are what is wanted first and then.
pub(crate) fn spells(start: Spell, units: &[u16]) -> bool
    ensures { result ≡ fits unit_test (rest_of start) units.now }
{
    let mut spell = start;
    for unit in units {
        match spell.next(*unit) {
            Some(next) => spell = next,
            None => return false,
        }
    }
    spell.may_end()
}
