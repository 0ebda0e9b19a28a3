// Places at which rules are broken.

ghost use Rattle.std.specs.Prelude.{◌≡◌, ◌+◌, ◌*◌, ◌^◌, ◌<◌, IfSome};
ghost use Rattle.pi_format.specs.Rules.Pieces.{unit_of};

/// The place of a unit of the code item at an offset.
pub(crate) fn unit_place(at: u32, unit: Option<u32>) -> Option<u32>
    requires { IfSome unit (λ u. at + 16 + 2 * u < 2 ^ 32) }
    ensures { result ≡ unit_of at unit }
{
    match unit {
        None => None,
        Some(unit) => Some(at + 16 + 2 * unit),
    }
}
