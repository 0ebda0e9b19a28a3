// The numbers in the units of an instruction, read and extended by their sign.

ghost use Rattle.std.specs.Prelude.{◌≡◌, ◌+◌, ◌*◌, ◌<◌, ◌≤◌, ◌^◌, length};
ghost use Rattle.std.specs.Int.{w32, cast_signed};
ghost use Rattle.pi_insn.specs.Numbers.{signed_number, signed_extension, word, long};

/// The signed number of these bits, where `half` is half of their range.
pub fn signed(half: u32, n: u32) -> i32
    requires half { half ≤ 2 ^ 31 }
    requires range { n < 2 * half }
    ensures { result ≡ signed_number half n }
{
    if n < half {
        n as i32
    } else {
        (n as i64 - 2 * half as i64) as i32
    }
}

/// The bits extended by their sign to 32 bits.
pub fn extended_int(half: u32, n: u32) -> u32
    requires half { half ≤ 2 ^ 31 }
    requires range { n < 2 * half }
    ensures { result ≡ signed_extension half (2 ^ 32) n }
{
    if n < half {
        n
    } else {
        n + (u32::MAX - (2 * (half - 1) + 1))
    }
}

/// The bits extended by their sign to 64 bits.
pub fn extended_long(half: u64, n: u64) -> u64
    requires half { half ≤ 2 ^ 31 }
    requires range { n < 2 * half }
    ensures { result ≡ signed_extension half (2 ^ 64) n }
{
    if n < half {
        n
    } else {
        n + (u64::MAX - (2 * half - 1))
    }
}

/// The 32-bit number whose low unit is at a place.
pub fn word(units: &[u16], at: usize) -> u32
    requires small { at < 2 ^ 32 }
    requires inside { at + 1 < length units.now }
    ensures { result ≡ word units.now at }
{
    units[at] as u32 + 65536 * units[at + 1] as u32
}

/// The 64-bit number whose low unit comes first.
pub fn long(units: &[u16]) -> u64
    requires { 4 ≤ length units.now }
    ensures { result ≡ long units.now }
{
    word(units, 0) as u64 + (1 << 32) * word(units, 2) as u64
}
