// The numbers in units.

ghost use Rattle.std.specs.Prelude.{◌≡◌, ◌+◌, ◌*◌, ◌<◌, length};
ghost use Rattle.pi_insn.specs.Numbers.{signed_number, word};

/// The number of 32 bits whose low unit stands at a place.
pub fn word(units: &[u16], i: usize) -> u32
    requires { i + 1 < length units.now }
    ensures { result ≡ word units.now i }
{
    units[i] as u32 + 65536 * units[i + 1] as u32
}

/// The signed number of 32 bits.
pub fn signed(n: u32) -> i32
    ensures { result ≡ signed_number 2147483648 n }
{
    if n < 1 << 31 {
        n as i32
    } else {
        (n as i64 - (1 << 32)) as i32
    }
}
