// The operands that are tried.

// Registers: the ends, some between, and three that do not exist.
pub(crate) const REGISTERS: [u32; 8] = [0, 1, 15, 30, 31, 32, 33, 0xFFFFFFFF];

// Conditions, bit numbers, vectors and system registers: all below 34, and six above.
pub(crate) const NUMBERS: [u32; 40] = [
    0, 1, 2, 3, 4, 5, 6, 7, 8, 9, 10, 11, 12, 13, 14, 15, 16, 17, 18, 19, 20, 21, 22, 23, 24, 25,
    26, 27, 28, 29, 30, 31, 32, 33, 64, 128, 256, 0x10000, 0x80000000, 0xFFFFFFFF,
];

// For an operand that an instruction does not have.
pub(crate) const NONE: [u32; 1] = [0];

// Immediates and displacements: nine words around each middle, from 4 below it to 4 above.
pub(crate) fn values() -> [u32; 504] {
    std::array::from_fn(value)
}

fn value(n: usize) -> u32 {
    middle(n / 9).wrapping_sub(4).wrapping_add((n % 9) as u32)
}

// 0; 2^4 to 2^31; -2^4 to -2^30. Every range ends beside one of them, and no two of their words are equal.
fn middle(n: usize) -> u32 {
    match n {
        0 => 0,
        1..=28 => 1 << (n + 3),
        _ => (1u32 << ((n - 25) % 32)).wrapping_neg(),
    }
}
