// A memory in which any four bytes tell where they stand: halfword m of it is m.

// A byte more than a memory may have.
pub(crate) const ROOM: usize = 65537;

pub(crate) fn memory() -> [u8; ROOM] {
    std::array::from_fn(byte)
}

fn byte(i: usize) -> u8 {
    let half = (i / 2 % 0x10000) as u16;
    half.to_le_bytes()[i % 2]
}
