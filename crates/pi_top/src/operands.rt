// The operands of commands, read by hand. docs/commands.md states what is accepted.
ghost use Rattle.std.specs.Prelude.{◌≡◌};
ghost use Rattle.std.specs.Char.{is_ascii_digit};
ghost use Rattle.std.specs.List.{list_all};
ghost use Rattle.pi_duty.specs.Words.{has_dash, is_number, number_up_to};

pub(crate) fn starts_with_dash(word: &str) -> bool
    ensures { result ≡ has_dash word.now }
{
    match word.as_bytes() {
        [] => false,
        [first, ..] => *first == b'-',
    }
}

/// The number that decimal digits without leading zeros write, up to `most`.
pub(crate) fn read_number(word: &str, most: u64) -> Option<u64>
    ensures { result ≡ number_up_to most word.now }
{
    if !is_plain_number(word.as_bytes()) {
        return None;
    }
    match word.parse::<u64>() {
        Ok(number) if number <= most => Some(number),
        Ok(_) => None,
        Err(_) => None,
    }
}

#[tactic(auto, using(crate::proofs::Wording::listed_digits))]
fn is_plain_number(word: &[u8]) -> bool
    ensures { result ≡ is_number word.now }
{
    match word {
        [] => false,
        [only] => only.is_ascii_digit(),
        [first, ..] => *first != b'0' && is_all_digits(word),
    }
}

fn is_all_digits(word: &[u8]) -> bool
    ensures { result ≡ list_all is_ascii_digit word.now }
{
    word.iter().all(|byte| byte.is_ascii_digit())
}
