//! The numbers of cells in Morton order.

/// Returns a number below 1,024 with two zeros before each of its 10 bits.
#[inline]
fn spread(number: u32) -> u32 {
    let bytes = (number | number << 16) & 0x0300_00ff;
    let nibbles = (bytes | bytes << 8) & 0x0300_f00f;
    let pairs = (nibbles | nibbles << 4) & 0x030c_30c3;
    (pairs | pairs << 2) & 0x0924_9249
}

/// Returns the number of a cell in Morton order: the bits of its places along the three axes, interleaved, with the
/// highest bit of `x` first.
///
/// The places are from 0 to 1,023. The number is below 2^30, even for greater places, but then it need not be unique.
/// No answer depends on it, so nothing about it is proved.
///
/// Source: Morton 1966 (the order of cells along a Z-shaped curve).
#[inline]
pub fn morton_number(x: u32, y: u32, z: u32) -> u32 {
    spread(x) << 2 | spread(y) << 1 | spread(z)
}
