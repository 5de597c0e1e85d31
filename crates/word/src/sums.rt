// Sums and differences of words. They wrap on purpose.
ghost use Rattle.std.specs.Prelude.{◌≡◌, ◌-◌, ◌^◌, ◌+ℤ◌, cond, FitsSigned};
ghost use Rattle.std.specs.Bool.{FalseIff};
ghost use Rattle.std.specs.Int.{w32};
ghost use Rattle.word.specs.Word.{signed, negative?, computed};
ghost use Rattle.word.specs.Sums.{sum, difference, add, sub, satadd, satsub};

use crate::Computed;

// a + b and a - b as 32 bits hold them: the library's, under the definition's names, as docs/DECISIONS.md has them.
pub fn sum(a: u32, b: u32) -> u32
    ensures { result ≡ sum a b }
{
    a.wrapping_add(b)
}

pub fn difference(a: u32, b: u32) -> u32
    ensures { result ≡ difference a b }
{
    a.wrapping_sub(b)
}

// A word below 0, read as a signed number.
fn negative(a: u32) -> bool
    ensures { result ≡ negative? a }
{
    0x80000000 <= a
}

// OV of a sum r of a and b: both differ from it in sign. Tried and slower: i32's overflowing_add and overflowing_sub, which say the same,
// with up to 1.9 instructions a step more (the image mem).
#[tactic(auto, using(crate::proofs::Overflow::sum_tells))]
fn overflow(a: u32, b: u32, r: u32) -> bool
    requires { r ≡ sum a b }
    ensures { FalseIff result (FitsSigned w32 (signed a +ℤ signed b)) }
{
    (negative(a) != negative(r)) & (negative(b) != negative(r))
}

// ADD: a + b.
#[tactic(auto, using(crate::proofs::Exact::overflows, crate::proofs::Overflow::wrapped), unfolding(crate::specs::Sums::add))]
pub fn add(a: u32, b: u32) -> Computed
    ensures { result ≡ add a b }
{
    let r = sum(a, b);
    Computed::new(r, overflow(a, b, r), r < a)
}

// SUB: a - b. What was taken away, put back, gives a again, and overflows where a - b did.
#[tactic(auto, using(crate::proofs::Overflow::taken), unfolding(crate::specs::Sums::sub))]
pub fn sub(a: u32, b: u32) -> Computed
    ensures { result ≡ sub a b }
{
    let r = difference(a, b);
    Computed::new(r, overflow(r, b, a), a < b)
}

// What SATADD and SATSUB store of a sum or difference of a: where it overflows, the end of the signed words on a's side.
// Z and S are of what is stored, OV and CY of the exact result. Tried and slower: i32's saturating_add and saturating_sub, which look for
// the overflow once more, with 1.4 instructions a step more (the image mulsat).
fn saturated(a: u32, exact: Computed) -> Computed
    ensures { result ≡ computed (cond exact.ov (cond (negative? a) (2 ^ 31) (2 ^ 31 - 1)) exact.result) exact.ov exact.cy }
{
    let stored = if !exact.ov {
        exact.result
    } else if negative(a) {
        0x80000000
    } else {
        0x7FFFFFFF
    };
    Computed::new(stored, exact.ov, exact.cy)
}

// SATADD and SATSUB, saturated. The four stay apart, a line or two for each instruction: they share `overflow` and `saturated`.
#[tactic(auto, using(crate::proofs::Overflow::stored_sum), unfolding(crate::specs::Sums::add, crate::specs::Sums::satadd))]
pub fn satadd(a: u32, b: u32) -> Computed
    ensures { result ≡ satadd a b }
{
    saturated(a, add(a, b))
}

// SATSUB: a - b, saturated.
#[tactic(auto, using(crate::proofs::Overflow::stored_difference), unfolding(crate::specs::Sums::sub, crate::specs::Sums::satsub))]
pub fn satsub(a: u32, b: u32) -> Computed
    ensures { result ≡ satsub a b }
{
    saturated(a, sub(a, b))
}
