// Fields of fewer bits as words, and sums of 24 bits.
ghost use Rattle.std.specs.Prelude.{◌≡◌};
ghost use Rattle.word.specs.Extend.{zero_extend, sign_extend, high_half, sum24};

// The low K bits of n.
#[tactic(auto, using(crate::proofs::Fields::whole))]
pub fn zero_extend<const K: u32>(n: u32) -> u32
    ensures { result ≡ zero_extend K n }
{
    if K < 32 { n % (1 << K) } else { n }
}

// The low K bits of n, counted by their sign. Bit K - 1, the highest, turned over, and its worth taken away, is right for both signs,
// so there is no branch. No bits have no sign, and more than 32 leave it as it is.
#[tactic(auto, using(crate::proofs::Fields::none, crate::proofs::Fields::more, crate::proofs::Fields::sign))]
pub fn sign_extend<const K: u32>(n: u32) -> u32
    ensures { result ≡ sign_extend K n }
{
    let low = zero_extend::<K>(n);
    if K == 0 || 32 < K {
        return low;
    }
    let half = 1u32 << (K - 1);
    (low ^ half).wrapping_sub(half)
}

// The low 16 bits of n as a high half.
pub fn high_half(n: u32) -> u32
    ensures { result ≡ high_half n }
{
    n % 0x10000 * 0x10000
}

// A sum of addresses: a carry out of bit 23 is dropped.
pub fn sum24(a: u32, b: u32) -> u32
    ensures { result ≡ sum24 a b }
{
    a.wrapping_add(b) % 0x1000000
}
