// The checksum of bytes. docs/dex-format.md states it with the header.

ghost use Rattle.std.specs.Prelude.{◌≡◌};
ghost use Rattle.pi_bytes.specs.Sums.{adler};

/// The checksum of bytes: two sums modulo the largest prime below 2^16.
#[tactic(auto, unfolding(crate::specs::Sums::adler))]
pub fn adler32(bytes: &[u8]) -> u32
    ensures { result ≡ adler bytes.now }
{
    let mut a: u32 = 1;
    let mut b: u32 = 0;
    for byte in bytes {
        a = (a + *byte as u32) % 65521;
        b = (b + a) % 65521;
    }
    b * 65536 + a
}
