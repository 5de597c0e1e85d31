// Shifts by the low five bits of n. The three stay apart, a line for each instruction, as in the definition.
ghost use Rattle.std.specs.Prelude.{◌≡◌};
ghost use Rattle.word.specs.Shifts.{places, out_right, out_left, shr, sar, shl};

use crate::Computed;

// The last bit shifted out to the right: bit n of a with a zero below it.
#[tactic(auto, using(crate::proofs::Bits::last_right))]
fn out_right(a: u32, n: u32) -> bool
    ensures { result ≡ out_right a (places n) }
{
    (u64::from(a) * 2 >> (n % 32)) % 2 == 1
}

// The last bit shifted out to the left: it stands above the 32 bits that stay.
#[tactic(auto, using(crate::proofs::Bits::last_left))]
fn out_left(a: u32, n: u32) -> bool
    ensures { result ≡ out_left a (places n) }
{
    (u64::from(a) << (n % 32)) / 0x100000000 % 2 == 1
}

#[tactic(auto, unfolding(crate::specs::Shifts::shr))]
pub fn shr(a: u32, n: u32) -> Computed
    ensures { result ≡ shr a n }
{
    Computed::new(a.wrapping_shr(n), false, out_right(a, n))
}

#[tactic(auto, unfolding(crate::specs::Shifts::sar), using(crate::proofs::Readings::read))]
pub fn sar(a: u32, n: u32) -> Computed
    ensures { result ≡ sar a n }
{
    let r = a.cast_signed().wrapping_shr(n).cast_unsigned();
    Computed::new(r, false, out_right(a, n))
}

#[tactic(auto, unfolding(crate::specs::Shifts::shl))]
pub fn shl(a: u32, n: u32) -> Computed
    ensures { result ≡ shl a n }
{
    Computed::new(a.wrapping_shl(n), false, out_left(a, n))
}
