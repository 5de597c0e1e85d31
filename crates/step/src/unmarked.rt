// What is never marked, in two numbers; and where a step goes on.
ghost use Rattle.std.specs.Prelude.{◌≡◌, Bool, true, false, cond, Ok, Err, ◌+◌, ◌*◌, ◌/◌, ◌%◌, ◌<◌};
ghost use Rattle.machine.specs.declared.Answer.TheVariants.{Leak};
ghost use Rattle.machine.specs.Step.{goto, plus};
ghost use Rattle.step.specs.Tasks.{open_of, Fits, next_of, is_calm};

use machine::{Answer, Open, Refusal, Tv};
use word::extend;

// Two numbers, as a step mostly changes PC alone, and a struct of eight fields is copied field by field. `rest` holds the maskable code in
// bits 0 to 15, an NMI in bit 16, HALT's state in bit 17, ID, EP and NP in bits 18 to 20, and ECR from bit 32 on.
#[derive(Clone, Copy)]
pub struct Packed {
    pub pc: u64,
    pub rest: u64,
}

// Where a step goes on. A calm one changes PC alone of what is never marked: nothing new can wait behind it, and the next step need not
// ask.
#[derive(Clone, Copy)]
pub enum Next {
    Calm(u32),
    Changed(Packed),
}

// Where the parts of `rest` begin.
const NMI: u64 = 0x10000;

const HALTED: u64 = 0x20000;

const ID: u64 = 0x40000;

const EP: u64 = 0x80000;

const NP: u64 = 0x100000;

const ECR: u64 = 0x100000000;

// A bit of `rest`, as a number.
fn bit(rest: u64, place: u64) -> u32
    requires { 0 < place }
    ensures { result ≡ rest / place % 2 }
{
    (rest / place % 2) as u32
}

// A marked value would have chosen code, an address, a branch, a return or PSW.
pub fn leak(pc: u32) -> Refusal
    ensures { result ≡ record { answer = Leak; place = pc } }
{
    Refusal {
        answer: Answer::Leak,
        place: pc,
    }
}

// A value that chooses one of these, if it is not marked.
pub fn reveal(v: Tv, pc: u32) -> Result<u32, Refusal>
    ensures { result ≡ cond v.mark (Err (record { answer = Leak; place = pc })) (Ok v.val) }
{
    if v.mark {
        return Err(leak(pc));
    }
    Ok(v.val)
}

impl Packed {
    pub fn pc(self) -> u32
        ensures { result ≡ (open_of self).pc }
    {
        (self.pc % 0x100000000) as u32
    }

    pub fn goto(self, pc: u32) -> Next
        ensures { (open_of (next_of self result) ≡ goto pc (open_of self)) }
    {
        Next::Calm(pc)
    }

    // As `Open` has it: a trait for the two would be longer than both.
    pub fn plus(self, n: u32) -> Next
        ensures { open_of (next_of self result) ≡ plus n (open_of self) }
    {
        self.goto(extend::sum24(self.pc(), n))
    }

    // NP, EP and ID as PSW has them, bits 7 to 5.
    pub fn mode_bits(self) -> u32
        ensures { result ≡ (open_of self).id + 2 * (open_of self).ep + 4 * (open_of self).np }
    {
        (self.rest / ID % 8) as u32
    }

    // Taken apart, and put together.
    pub fn unpack(self) -> Open
        ensures { (result ≡ open_of self) × Fits result }
    {
        Open {
            pc: self.pc(),
            np: bit(self.rest, NP),
            ep: bit(self.rest, EP),
            id: bit(self.rest, ID),
            ecr: (self.rest / ECR) as u32,
            code: (self.rest % NMI) as u32,
            nmi: bit(self.rest, NMI),
            halted: bit(self.rest, HALTED),
        }
    }

    pub fn pack(o: Open) -> Packed
        requires { Fits o }
        ensures { open_of result ≡ o }
    {
        Packed {
            pc: u64::from(o.pc),
            rest: u64::from(o.code)
                + NMI * u64::from(o.nmi)
                + HALTED * u64::from(o.halted)
                + ID * u64::from(o.id)
                + EP * u64::from(o.ep)
                + NP * u64::from(o.np)
                + ECR * u64::from(o.ecr),
        }
    }

    // The state behind a step from here.
    pub fn after(self, n: Next) -> Packed
        ensures { result ≡ next_of self n }
    {
        match n {
            Next::Calm(pc) => Packed {
                pc: u64::from(pc),
                rest: self.rest,
            },
            Next::Changed(c) => c,
        }
    }
}

impl Next {
    // More than PC has changed.
    pub fn to(o: Open) -> Next
        requires { Fits o }
        ensures { (c : Packed) → open_of (next_of c result) ≡ o }
    {
        Next::Changed(Packed::pack(o))
    }

    pub fn is_calm(self) -> bool
        ensures { result ≡ is_calm self }
    {
        matches!(self, Next::Calm(_))
    }
}
