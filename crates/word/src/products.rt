// MULH and DIVH, by multiplication and division of i32.
ghost use Rattle.std.specs.Prelude.{◌≡◌};
ghost use Rattle.word.specs.Products.{mulh, divh};

use crate::{Computed, signed};

// MULH: the product of the low halves.
#[tactic(auto, using(crate::proofs::Readings::read, crate::proofs::Exact::product_fits), unfolding(crate::specs::Products::mulh))]
pub fn mulh(a: u32, b: u32) -> u32
    ensures { result ≡ mulh a b }
{
    (signed::signed_half(a) * signed::signed_half(b)).cast_unsigned()
}

// DIVH: a by the low half of b. The least number by -1 is the one quotient that is no signed word: it overflows, and wraps to itself.
pub fn divh(a: u32, b: u32) -> Computed
    ensures { result ≡ divh a b }
{
    let d = signed::signed_half(b);
    if d == 0 {
        return Computed {
            result: a,
            z: false,
            s: false,
            ov: true,
            cy: false,
        };
    }
    let (q, ov) = a.cast_signed().overflowing_div(d);
    Computed::new(q.cast_unsigned(), ov, false)
}
