// A payload as it is lent.

/// The data that a switch or fill-array-data points at. A 32-bit number is two units, the low one first; targets are
/// signed distances from the switch, keys are signed. `size` counts items of `width` bytes, which is 1, 2, 4 or 8.
#[derive(Clone, Copy, Debug)]
pub enum Payload<'a> {
    Packed {
        first: i32,
        targets: &'a [u16],
    },
    Sparse {
        keys: &'a [u16],
        targets: &'a [u16],
    },
    Array {
        width: u16,
        size: u32,
        items: &'a [u16],
    },
}
