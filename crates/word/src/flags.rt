// The sixteen conditions, over the five flags as the low bits of PSW.
ghost use Rattle.std.specs.Prelude.{◌≡◌};
ghost use Rattle.word.specs.Flags.{unpacked, holds, reads};
ghost use Rattle.word.specs.Settings.{either, differ, flip, sets_of};

// Of a condition, as sets of the 32 settings of PSW bits 0 to 4: those in which it is true, and those in which a flag that it reads is 1.
// Bit n stands for setting n.
#[derive(Clone, Copy)]
pub struct Sets {
    pub true_in: u32,
    pub read_in: u32,
}

// True where one flag is 1.
const Z: Sets = Sets {
    true_in: 0xAAAAAAAA,
    read_in: 0xAAAAAAAA,
};

const S: Sets = Sets {
    true_in: 0xCCCCCCCC,
    read_in: 0xCCCCCCCC,
};

const OV: Sets = Sets {
    true_in: 0xF0F0F0F0,
    read_in: 0xF0F0F0F0,
};

const CY: Sets = Sets {
    true_in: 0xFF00FF00,
    read_in: 0xFF00FF00,
};

const SAT: Sets = Sets {
    true_in: 0xFFFF0000,
    read_in: 0xFFFF0000,
};

const NEVER: Sets = Sets {
    true_in: 0,
    read_in: 0,
};

impl Sets {
    // True where either is.
    fn either(self, other: Sets) -> Sets
        ensures { result ≡ either self other }
    {
        Sets {
            true_in: self.true_in | other.true_in,
            read_in: self.read_in | other.read_in,
        }
    }

    // True where they differ.
    fn differ(self, other: Sets) -> Sets
        ensures { result ≡ differ self other }
    {
        Sets {
            true_in: self.true_in ^ other.true_in,
            read_in: self.read_in | other.read_in,
        }
    }

    // True where it is not.
    fn flip(self) -> Sets
        ensures { result ≡ flip self }
    {
        Sets {
            true_in: !self.true_in,
            read_in: self.read_in,
        }
    }
}

// Both of condition k, from one table: the truth and the mark are looked up together. k is a number, the manual's four bits cccc, and no
// enum: an instruction holds it as one, so that the encoder can be given one past 15 and refuse it.
#[tactic(auto, unfolding(crate::specs::Settings::table, crate::specs::Flags::conditions))]
fn sets_of(k: u32) -> Sets
    ensures { result ≡ sets_of k }
{
    match k {
        0 => OV,
        1 => CY,
        2 => Z,
        3 => CY.either(Z),
        4 => S,
        5 => NEVER.flip(),
        6 => S.differ(OV),
        7 => S.differ(OV).either(Z),
        8 => OV.flip(),
        9 => CY.flip(),
        10 => Z.flip(),
        11 => CY.either(Z).flip(),
        12 => S.flip(),
        13 => SAT,
        14 => S.differ(OV).flip(),
        15 => S.differ(OV).either(Z).flip(),
        _ => NEVER,
    }
}

// Of a condition: whether it is true of the flags, and whether it reads one that is marked.
#[derive(Clone, Copy)]
pub struct Judged {
    pub holds: bool,
    pub reads: bool,
}

// Condition k, of the flags and of their marks.
#[tactic(auto, using(crate::proofs::Settings::holds_told, crate::proofs::Settings::reads_told))]
pub fn judge(k: u32, flags: u32, marks: u32) -> Judged
    ensures { (result.holds ≡ holds k (unpacked flags)) × (result.reads ≡ reads k (unpacked marks)) }
{
    let s = sets_of(k);
    Judged {
        holds: s.true_in.wrapping_shr(flags) % 2 == 1,
        reads: s.read_in.wrapping_shr(marks) % 2 == 1,
    }
}
