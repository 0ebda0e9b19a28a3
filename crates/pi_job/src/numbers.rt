// Numbers in fields, in both writings.

ghost use Rattle.std.specs.Prelude.{◌≡◌, ◌^◌, ◌<◌, ◌≤◌, option_and_then, option_map, IfSome};
ghost use Rattle.pi_job.specs.Numbers.{digit_of, digits_from, number_of, number_in, if_in_range};

/// A digit to base 10 or 16.
fn digit_of(base: u64, b: u8) -> Option<u64>
    ensures value { result ≡ digit_of base b }
    ensures bound { IfSome result (λ d. d < 16) }
{
    if b'0' <= b && b <= b'9' {
        Some((b - b'0') as u64)
    } else if base == 16 && b'a' <= b && b <= b'f' {
        Some((b - 87) as u64)
    } else {
        None
    }
}

/// The number of some digits, where it is not above a limit.
fn digits(base: u64, high: u64, text: &[u8]) -> Option<u64>
    requires base { 0 < base }
    requires small { base ≤ 16 }
    requires high { high < 2 ^ 41 }
    ensures { result ≡ option_and_then (if_in_range 0 high) (digits_from base 0 text.now) }
{
    let mut above = 0u64;
    for b in text {
        let Some(d) = digit_of(base, *b) else {
            return None;
        };
        above = above * base + d;
        if above > high {
            return None;
        }
    }
    Some(above)
}

/// The number that a field is, where it is not above a limit.
fn number_to(high: u64, text: &[u8]) -> Option<u64>
    requires { high < 2 ^ 41 }
    ensures { result ≡ option_and_then (if_in_range 0 high) (number_of text.now) }
{
    match text {
        [b'0'] => Some(0),
        [b'0', b'x', hex @ ..] => {
            if hex.is_empty() || hex.len() > 8 {
                None
            } else {
                digits(16, high, hex)
            }
        }
        [b'0', ..] => None,
        [] => None,
        _ => digits(10, high, text),
    }
}

/// The number that a field is, where it is in a range.
pub(crate) fn number_in(low: u64, high: u64, text: &[u8]) -> Option<u64>
    requires { high < 2 ^ 41 }
    ensures value { result ≡ number_in low high text.now }
    ensures bound { IfSome result (λ n. n ≤ high) }
{
    match number_to(high, text) {
        Some(n) if low <= n => Some(n),
        _ => None,
    }
}
