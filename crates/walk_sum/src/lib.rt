// What the walks share: a sum over all that a walk saw, which tells one list of numbers from another.
#![tactic(auto)]

ghost use Rattle.std.specs.Prelude.{◌≡◌, Some};
ghost use Rattle.walk_sum.specs.Sum.{mixed};

use std::fmt;
use std::marker::Model;

// The factor is odd, so lists that differ in one place only have different sums; and 1 more than a multiple of 4, so that many
// like differences do not cancel.
const FACTOR: u32 = 1664525;

#[derive(Clone, Copy, Default)]
pub struct Sum(u32);

impl Model for Sum {
    ghost use Rattle.std.specs.Prelude.{ℕ};

    ghost Value = { ℕ };

    ghost view = { λ s. s.0 };

    ghost inverse = { λ n. record { 0 = n } };
}

impl Sum {
    // Takes a number in.
    pub fn mix(&mut self, n: u32)
        ensures { self.new ≡ mixed self.old n }
    {
        self.0 = self.0.wrapping_mul(FACTOR).wrapping_add(n);
    }
}

// Eight digits in hex.
impl fmt::Display for Sum {
    ghost use Rattle.walk_sum.specs.Sum.{shown};

    ghost output = { λ s. Some (shown s) };

    fn fmt<W: fmt::Write>(&self, f: &mut fmt::Formatter<W>) -> fmt::Result {
        write!(f, "{:08x}", self.0)
    }
}
