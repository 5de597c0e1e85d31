// What the encoder answered, counted, and a sum over all the answers (`walk_sum`).
use insn::{EncodeError, Halfwords};
use std::fmt;
use walk_sum::Sum;

#[derive(Clone, Copy, Default)]
pub(crate) struct Tally {
    one: u32,
    two: u32,
    field: u32,
    sum: Sum,
}

impl Tally {
    // The number of halfwords goes into the sum, and both halfwords, 0 for one that is not there.
    pub(crate) fn note(&mut self, answer: Result<Halfwords, EncodeError>) {
        match answer {
            Ok(Halfwords::One(h)) => {
                self.one = self.one.wrapping_add(1);
                self.mix(1, h, 0);
            }
            Ok(Halfwords::Two(h, w)) => {
                self.two = self.two.wrapping_add(1);
                self.mix(2, h, w);
            }
            Err(EncodeError::Field) => {
                self.field = self.field.wrapping_add(1);
                self.mix(0, 0, 0);
            }
        }
    }

    fn mix(&mut self, count: u32, first: u16, second: u16) {
        self.sum.mix(count);
        self.sum.mix(u32::from(first));
        self.sum.mix(u32::from(second));
    }
}

impl fmt::Display for Tally {
    fn fmt<W: fmt::Write>(&self, f: &mut fmt::Formatter<W>) -> fmt::Result {
        write!(f, "{} {} {} {}", self.one, self.two, self.field, self.sum)
    }
}
