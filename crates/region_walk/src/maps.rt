// Good maps, and what one word of them is changed to.

// A map: of four regions base, length, offset and rights.
pub(crate) type Map = [[u32; 4]; 4];

pub(crate) const MAPS: [Map; 6] = [TOUCHING, TO_THE_ENDS, WHOLE, LEAST, TURNED, NONE];

pub(crate) const FIELDS: [&str; 4] = ["base", "length", "offset", "rights"];

// Four regions that touch in addresses and in offsets, in 64 bytes.
const TOUCHING: Map = [
    [0, 16, 0, 7],
    [16, 16, 16, 5],
    [32, 16, 32, 3],
    [48, 16, 48, 0],
];

// Up to the last address and the last byte; at address 0, with odd offsets; one unused.
const TO_THE_ENDS: Map = [
    [0xFFFFF0, 16, 65520, 4],
    [0, 4, 1, 1],
    [4, 65504, 5, 2],
    [0, 0, 0, 0],
];

// All of the largest memory in one region, below 2^24.
const WHOLE: Map = [
    [0, 0, 0, 0],
    [0, 0, 0, 0],
    [0xFF0000, 65536, 0, 7],
    [0, 0, 0, 0],
];

// One region of four bytes.
const LEAST: Map = [[0, 0, 0, 0], [0, 0, 0, 0], [0, 0, 0, 0], [0, 4, 0, 6]];

// Two regions with room around them, their offsets in the other order than their addresses.
const TURNED: Map = [
    [0x800000, 8, 12, 1],
    [0, 0, 0, 0],
    [0, 0, 0, 0],
    [0x400000, 24, 40, 2],
];

const NONE: Map = [[0; 4]; 4];

// What a word is changed to.
#[derive(Clone, Copy)]
pub(crate) enum Change {
    By(i32),
    To(u32),
}

// Itself, a little more or less, and numbers at the ends of what a field may be.
pub(crate) const CHANGES: [Change; 16] = [
    Change::By(0),
    Change::By(1),
    Change::By(2),
    Change::By(4),
    Change::By(8),
    Change::By(16),
    Change::By(-1),
    Change::By(-2),
    Change::By(-4),
    Change::By(-16),
    Change::To(0),
    Change::To(8),
    Change::To(0xFFFFF0),
    Change::To(0x1000000),
    Change::To(0x80000000),
    Change::To(0xFFFFFFF0),
];

impl Change {
    pub(crate) fn of(self, word: u32) -> u32 {
        match self {
            Change::By(n) => word.wrapping_add_signed(n),
            Change::To(n) => n,
        }
    }
}
