// The fields of a first halfword, each within its bits: reg2 in bits 15-11, opcode in 10-5, reg1 in 4-0.
ghost use Rattle.std.specs.Prelude.{◌<◌};

use crate::Halfwords;

#[derive(Clone, Copy)]
pub(crate) struct Fields {
    pub(crate) reg2: u32,
    pub(crate) opcode: u32,
    pub(crate) reg1: u32,
    ghost reg2_fits: { reg2 < 32 },
    ghost opcode_fits: { opcode < 64 },
    ghost reg1_fits: { reg1 < 32 },
}

impl Fields {
    ghost use Rattle.std.specs.Prelude.{◌≡◌, ◌^◌};
    ghost use Rattle.insn.specs.Coding.{half, two_of};
    ghost use Rattle.insn.specs.declared.Halfwords.TheVariants.{One};

    fn half(self) -> u16
        ensures { result ≡ half self.reg2 self.opcode self.reg1 }
    {
        (self.reg2 * 2048 + (self.opcode * 32 + self.reg1)) as u16
    }

    // The halfword alone, and with a second one.
    pub(crate) fn one(self) -> Halfwords
        ensures { result ≡ One (half self.reg2 self.opcode self.reg1) }
    {
        Halfwords::One(self.half())
    }

    pub(crate) fn two(self, second: u32) -> Halfwords
        requires { second < 2 ^ 16 }
        ensures { result ≡ two_of self.reg2 self.opcode self.reg1 second }
    {
        Halfwords::Two(self.half(), second as u16)
    }
}
