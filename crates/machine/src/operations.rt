// Each instruction's operation.
use crate::Op;
use insn::{Imm5Op, Imm16Op, RegOp, ShiftOp};

impl From<RegOp> for Op {
    ghost use Rattle.std.specs.Prelude.{◌≡◌};
    ghost use Rattle.machine.specs.Operations.{of_reg};

    ghost from_gives = { λ op r. r ≡ of_reg op };

    #[tactic(auto, unfolding(crate::specs::Operations::of_reg))]
    fn from(op: RegOp) -> Op {
        match op {
            RegOp::Mov => Op::Mov,
            RegOp::Not => Op::Not,
            RegOp::Divh => Op::Divh,
            RegOp::Satsubr => Op::Satsubr,
            RegOp::Satsub => Op::Satsub,
            RegOp::Satadd => Op::Satadd,
            RegOp::Mulh => Op::Mulh,
            RegOp::Or => Op::Or,
            RegOp::Xor => Op::Xor,
            RegOp::And => Op::And,
            RegOp::Tst => Op::Tst,
            RegOp::Subr => Op::Subr,
            RegOp::Sub => Op::Sub,
            RegOp::Add => Op::Add,
            RegOp::Cmp => Op::Cmp,
        }
    }
}

impl From<Imm5Op> for Op {
    ghost use Rattle.std.specs.Prelude.{◌≡◌};
    ghost use Rattle.machine.specs.Operations.{of_imm5};

    ghost from_gives = { λ op r. r ≡ of_imm5 op };

    #[tactic(auto, unfolding(crate::specs::Operations::of_imm5))]
    fn from(op: Imm5Op) -> Op {
        match op {
            Imm5Op::Mov5 => Op::Mov,
            Imm5Op::Satadd5 => Op::Satadd,
            Imm5Op::Add5 => Op::Add,
            Imm5Op::Cmp5 => Op::Cmp,
            Imm5Op::Shr5 => Op::Shr,
            Imm5Op::Sar5 => Op::Sar,
            Imm5Op::Shl5 => Op::Shl,
            Imm5Op::Mulh5 => Op::Mulh,
        }
    }
}

impl From<Imm16Op> for Op {
    ghost use Rattle.std.specs.Prelude.{◌≡◌};
    ghost use Rattle.machine.specs.Operations.{of_imm16};

    ghost from_gives = { λ op r. r ≡ of_imm16 op };

    #[tactic(auto, unfolding(crate::specs::Operations::of_imm16))]
    fn from(op: Imm16Op) -> Op {
        match op {
            Imm16Op::Addi => Op::Add,
            Imm16Op::Movea => Op::Movea,
            Imm16Op::Movhi => Op::Movhi,
            Imm16Op::Satsubi => Op::Satsub,
            Imm16Op::Ori => Op::Or,
            Imm16Op::Xori => Op::Xor,
            Imm16Op::Andi => Op::Andi,
            Imm16Op::Mulhi => Op::Mulh,
        }
    }
}

impl From<ShiftOp> for Op {
    ghost use Rattle.std.specs.Prelude.{◌≡◌};
    ghost use Rattle.machine.specs.Operations.{of_shift};

    ghost from_gives = { λ op r. r ≡ of_shift op };

    #[tactic(auto, unfolding(crate::specs::Operations::of_shift))]
    fn from(op: ShiftOp) -> Op {
        match op {
            ShiftOp::Shr => Op::Shr,
            ShiftOp::Sar => Op::Sar,
            ShiftOp::Shl => Op::Shl,
        }
    }
}
