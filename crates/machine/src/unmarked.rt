// What is never marked, with PC, the modes, the cause or the requests changed.
ghost use Rattle.std.specs.Prelude.{◌≡◌, ◌^◌, ◌<◌};
ghost use Rattle.machine.specs.Step.{goto, plus, modes, waits, fecc, eicc};

use crate::Open;
use word::extend;

impl Open {
    pub fn goto(self, pc: u32) -> Open
        ensures { result ≡ goto pc self }
    {
        Open { pc, ..self }
    }

    pub fn plus(self, n: u32) -> Open
        ensures { result ≡ plus n self }
    {
        self.goto(extend::sum24(self.pc, n))
    }

    pub fn modes(self, np: u32, ep: u32, id: u32) -> Open
        ensures { result ≡ modes np ep id self }
    {
        Open { np, ep, id, ..self }
    }

    pub fn waits(self, code: u32, nmi: u32, halted: u32) -> Open
        ensures { result ≡ waits code nmi halted self }
    {
        Open {
            code,
            nmi,
            halted,
            ..self
        }
    }

    // ECR's high half, and its low half. x is no u16: callers have it as a word (`code`, or 40H and a vector), and each would narrow it first.
    pub fn fecc(self, x: u32) -> Open
        requires { x < 2 ^ 16 }
        ensures { result ≡ fecc x self }
    {
        Open {
            ecr: x * 0x10000 + self.ecr % 0x10000,
            ..self
        }
    }

    pub fn eicc(self, x: u32) -> Open
        requires { x < 2 ^ 16 }
        ensures { result ≡ eicc x self }
    {
        Open {
            ecr: self.ecr / 0x10000 * 0x10000 + x,
            ..self
        }
    }
}
