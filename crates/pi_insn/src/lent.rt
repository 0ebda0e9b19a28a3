// The payload at a place, lent from the units that it stands in.

ghost use Rattle.std.specs.Prelude.{◌≡◌, ◌+◌, ◌*◌, ◌≤◌, length, drop, IfSome, IfNone, ◌<◌, ◌^◌, take};
ghost use Rattle.pi_insn.specs.Lent.{data_of};
ghost use Rattle.pi_insn.specs.Payloads.{packed_data, sparse, array, payload_at, units_for, is_width};

use crate::data::Payload;
use crate::numbers::{signed, word};

/// The first units of a slice, where there are so many.
fn front(units: &[u16], n: usize) -> &[u16]
    requires { n ≤ length units.now }
    ensures { result.now ≡ take n units.now }
{
    let (front, _) = units.split_at(n);
    front
}

/// The units behind the first.
fn behind(units: &[u16], n: usize) -> &[u16]
    requires { n ≤ length units.now }
    ensures { result.now ≡ drop n units.now }
{
    let (_, rest) = units.split_at(n);
    rest
}

fn packed(size: u16, rest: &[u16]) -> Option<Payload<'_>>
    ensures none { IfNone result (packed_data size rest.now ≡ None) }
    ensures some { IfSome result (λ p. packed_data size rest.now ≡ Some (data_of p)) }
{
    let n = 2 * size as usize;
    if rest.len() < 2 + n {
        return None;
    }
    Some(Payload::Packed {
        first: signed(1 << 31, word(rest, 0)),
        targets: front(behind(rest, 2), n),
    })
}

fn sparse(size: u16, rest: &[u16]) -> Option<Payload<'_>>
    ensures none { IfNone result (sparse size rest.now ≡ None) }
    ensures some { IfSome result (λ p. sparse size rest.now ≡ Some (data_of p)) }
{
    let n = 2 * size as usize;
    if rest.len() < 2 * n {
        return None;
    }
    Some(Payload::Sparse {
        keys: front(rest, n),
        targets: front(behind(rest, n), n),
    })
}

fn is_width(n: u16) -> bool
    ensures { result ≡ is_width n }
{
    n == 1 || n == 2 || n == 4 || n == 8
}

fn array(width: u16, rest: &[u16]) -> Option<Payload<'_>>
    ensures none { IfNone result (array width rest.now ≡ None) }
    ensures some { IfSome result (λ p. array width rest.now ≡ Some (data_of p)) }
{
    if !is_width(width) || rest.len() < 2 {
        return None;
    }
    let size = word(rest, 0);
    let n = (width as usize * size as usize).div_ceil(2);
    if rest.len() < 2 + n {
        return None;
    }
    Some(Payload::Array {
        width,
        size,
        items: front(behind(rest, 2), n),
    })
}

/// The payload at a place, `None` exactly where none of the three kinds stands there whole, as also behind the end.
#[tactic(auto, unfolding(crate::specs::Payloads::payload))]
pub fn payload(units: &[u16], at: usize) -> Option<Payload<'_>>
    ensures none { IfNone result (payload_at units.now at ≡ None) }
    ensures some { IfSome result (λ p. payload_at units.now at ≡ Some (data_of p)) }
{
    if units.len() < at {
        return None;
    }
    match behind(units, at) {
        [0x0100, size, rest @ ..] => packed(*size, rest),
        [0x0200, size, rest @ ..] => sparse(*size, rest),
        [0x0300, width, rest @ ..] => array(*width, rest),
        _ => None,
    }
}
