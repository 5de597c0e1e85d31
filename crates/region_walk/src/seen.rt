// The parts that were handed out: how many, and a sum over their lengths and places.
use std::fmt;
use walk_sum::Sum;

#[derive(Clone, Copy, Default)]
pub(crate) struct Seen {
    parts: u32,
    sum: Sum,
}

impl Seen {
    // The length goes into the sum, and of a part that is not empty the first four bytes and the last.
    pub(crate) fn note(&mut self, part: &[u8]) {
        let n = part.len();
        self.sum.mix((n % 0x100000000) as u32);
        if n >= 4 {
            self.parts = self.parts.wrapping_add(1);
            self.bytes(&part[..4]);
            self.bytes(&part[n - 4..]);
        }
    }

    fn bytes(&mut self, bytes: &[u8]) {
        for b in bytes {
            self.sum.mix(u32::from(*b));
        }
    }
}

impl fmt::Display for Seen {
    fn fmt<W: fmt::Write>(&self, f: &mut fmt::Formatter<W>) -> fmt::Result {
        write!(f, "{} {}", self.parts, self.sum)
    }
}
