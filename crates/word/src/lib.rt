// The arithmetic of 32-bit words: what the manual's instructions compute, on numbers alone.
#![tactic(auto)]

ghost use Rattle.std.specs.Prelude.{◌≡◌};
ghost use Rattle.word.specs.Word.{computed};

pub mod extend;
pub mod flags;
pub mod products;
pub mod shifts;
pub mod signed;
pub mod sums;

// A result, and the flags that speak of it. A flag that the instruction does not set is false here, and is not stored.
#[derive(Clone, Copy)]
pub struct Computed {
    pub result: u32,
    pub z: bool,
    pub s: bool,
    pub ov: bool,
    pub cy: bool,
}

impl Computed {
    // A result with Z and S of it.
    pub fn new(r: u32, ov: bool, cy: bool) -> Computed
        ensures { result ≡ computed r ov cy }
    {
        Computed {
            result: r,
            z: r == 0,
            s: 0x80000000 <= r,
            ov: ov,
            cy: cy,
        }
    }
}
