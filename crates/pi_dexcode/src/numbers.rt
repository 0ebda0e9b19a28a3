// Whole numbers modulo 2^32.

ghost use Rattle.std.specs.Prelude.{◌≡◌};
ghost use Rattle.pi_format.specs.Says.Insns.{word_of, target};

/// A whole number modulo 2^32.
pub(crate) fn word_of(n: i64) -> u32
    ensures { result ≡ word_of n }
{
    n.rem_euclid(1 << 32) as u32
}

/// The address that far from another, modulo 2^32.
pub(crate) fn target(at: u32, dist: i32) -> u32
    ensures { result ≡ target at dist }
{
    word_of(at as i64 + dist as i64)
}
