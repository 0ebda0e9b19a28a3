// The units of an instruction before memory is taken for them, and the numbers in them.

ghost use Rattle.std.specs.Prelude.{◌≡◌, ◌%◌, ◌/◌, ◌+◌, ◌*◌, ◌≤◌, ◌<◌, ◌^◌, Some, [], ◌∷◌};
ghost use Rattle.pi_insn.specs.Numbers.{number_below, bits, short_bits, exact_quotient};
ghost use Rattle.pi_insn.specs.Packed.{list_of};
ghost use Rattle.pi_insn.specs.Writing.{as_units, with_byte, with_pair};

/// The units of an instruction.
#[derive(Drop)]
pub enum Packed {
    One([u16; 1]),
    Two([u16; 2]),
    Three([u16; 3]),
    Five([u16; 5]),
}

impl Packed {
    /// The units in order.
    pub fn as_slice(&self) -> &[u16]
        ensures { result.now ≡ list_of self.now }
    {
        match self {
            Packed::One(units) => units,
            Packed::Two(units) => units,
            Packed::Three(units) => units,
            Packed::Five(units) => units,
        }
    }
}

/// One unit.
pub fn one(first: u16) -> Packed
    ensures { as_units (first ∷ []) ≡ Some (list_of result) }
{
    Packed::One([first])
}

/// A unit and another.
pub fn two(first: u16, second: u16) -> Packed
    ensures { as_units (first ∷ second ∷ []) ≡ Some (list_of result) }
{
    Packed::Two([first, second])
}

/// Three units.
pub fn three(first: u16, second: u16, third: u16) -> Packed
    ensures { as_units (first ∷ second ∷ third ∷ []) ≡ Some (list_of result) }
{
    Packed::Three([first, second, third])
}

/// A unit and the two of a number, the low one first.
pub fn with_word(first: u16, n: u32) -> Packed
    ensures { as_units (first ∷ n % 65536 ∷ n / 65536 ∷ []) ≡ Some (list_of result) }
{
    three(first, (n % 65536) as u16, (n / 65536) as u16)
}

/// A unit and the four of a number, the low ones first.
pub fn with_long(first: u16, n: u64) -> Packed
    ensures { as_units (first ∷ n % 65536 ∷ n / 65536 % 65536 ∷ n / 4294967296 % 65536 ∷ n / 281474976710656 ∷ []) ≡ Some (list_of result) }
{
    Packed::Five([
        first,
        (n % 65536) as u16,
        (n / 65536 % 65536) as u16,
        (n / (1 << 32) % 65536) as u16,
        (n / (1 << 48)) as u16,
    ])
}

/// The number, where it is below a limit.
pub fn below(limit: u16, n: u16) -> Option<u16>
    ensures { result ≡ number_below limit n }
{
    if n < limit { Some(n) } else { None }
}

/// The first unit with an opcode and a byte.
pub fn with_byte(op: u8, a: u16) -> Option<u16>
    ensures { result ≡ with_byte op a }
{
    let a = below(256, a)?;
    Some(op as u16 + 256 * a)
}

/// The first unit with an opcode and two numbers of four bits.
pub fn with_pair(op: u8, a: u16, b: u16) -> Option<u16>
    ensures { result ≡ with_pair op a b }
{
    let a = below(16, a)?;
    let b = below(16, b)?;
    Some(op as u16 + 256 * a + 4096 * b)
}

/// The bits of a signed number, where half of so many say it.
pub fn bits(half: u32, n: i32) -> Option<u32>
    requires { half ≤ 2 ^ 31 }
    ensures { result ≡ bits half n }
{
    let n = n as i64;
    let half = half as i64;
    if n < -half || n >= half {
        return None;
    }
    if n < 0 {
        return Some((n + 2 * half) as u32);
    }
    Some(n as u32)
}

/// The bits that extend to a number of 32 bits, where there are such.
pub fn shortened_int(half: u32, n: u32) -> Option<u32>
    requires some { 1 ≤ half }
    requires half { half ≤ 2 ^ 31 }
    ensures { result ≡ short_bits half (2 ^ 32) n }
{
    if n < half {
        return Some(n);
    }
    if n > u32::MAX - half {
        return Some(n - (u32::MAX - (2 * (half - 1) + 1)));
    }
    None
}

/// The bits that extend to a number of 64 bits, where there are such.
pub fn shortened_long(half: u64, n: u64) -> Option<u64>
    requires some { 1 ≤ half }
    requires half { half ≤ 2 ^ 31 }
    ensures { result ≡ short_bits half (2 ^ 64) n }
{
    if n < half {
        return Some(n);
    }
    if n > u64::MAX - half {
        return Some(n - (u64::MAX - (2 * half - 1)));
    }
    None
}
