// The operations on words: each computes, writes its result if it does, and sets its family's flags.
ghost use Rattle.std.specs.Prelude.{◌≡◌};
ghost use Rattle.machine.specs.Marked.{tv};
ghost use Rattle.machine.specs.Psw.{put_reg, set_flags};
ghost use Rattle.machine.specs.Operations.{only, operate};

use crate::cells::Cells;
use machine::{Kind, Op, Tv};
use word::{Computed, extend, products, shifts, sums};

// A result whose OV and CY are not set.
fn only(r: u32) -> Computed
    ensures { result ≡ only r }
{
    Computed::new(r, false, false)
}

impl Cells {
    // A result to register r, and its family's flags. The flags go first, which is faster, and the same: they lie in another cell.
    #[tactic(auto, using(crate::proofs::Flags::flags_first))]
    fn write(&mut self, kind: Kind, a: Computed, mark: bool, r: u32)
        ensures { self.new ≡ set_flags kind a mark (put_reg r (tv a.result mark) self.old) }
    {
        self.set_flags(kind, a, mark);
        self.put_reg(
            r,
            Tv {
                val: a.result,
                mark,
            },
        );
    }

    // The operation op on the operands x and y, its result to register r.
    #[tactic(auto, unfolding(machine::specs::Operations::operate, machine::specs::Operations::operation))]
    pub fn operate(&mut self, op: Op, x: Tv, y: Tv, r: u32)
        ensures { self.new ≡ operate op x y r self.old }
    {
        let mark = x.mark | y.mark;
        match op {
            Op::Mov => self.write(Kind::Quiet, only(x.val), x.mark, r),
            Op::Not => self.write(Kind::Logic, only(!x.val), x.mark, r),
            Op::Divh => self.write(Kind::Divide, products::divh(y.val, x.val), mark, r),
            Op::Satsubr => self.write(Kind::Saturate, sums::satsub(x.val, y.val), mark, r),
            Op::Satsub => self.write(Kind::Saturate, sums::satsub(y.val, x.val), mark, r),
            Op::Satadd => self.write(Kind::Saturate, sums::satadd(y.val, x.val), mark, r),
            Op::Mulh => self.write(Kind::Quiet, only(products::mulh(y.val, x.val)), mark, r),
            Op::Or => self.write(Kind::Logic, only(y.val | x.val), mark, r),
            Op::Xor => self.write(Kind::Logic, only(y.val ^ x.val), mark, r),
            Op::And => self.write(Kind::Logic, only(y.val & x.val), mark, r),
            Op::Tst => self.set_flags(Kind::Logic, only(y.val & x.val), mark),
            Op::Subr => self.write(Kind::Arith, sums::sub(x.val, y.val), mark, r),
            Op::Sub => self.write(Kind::Arith, sums::sub(y.val, x.val), mark, r),
            Op::Add => self.write(Kind::Arith, sums::add(y.val, x.val), mark, r),
            Op::Cmp => self.set_flags(Kind::Arith, sums::sub(y.val, x.val), mark),
            Op::Shr => self.write(Kind::Shift, shifts::shr(y.val, x.val), mark, r),
            Op::Sar => self.write(Kind::Shift, shifts::sar(y.val, x.val), mark, r),
            Op::Shl => self.write(Kind::Shift, shifts::shl(y.val, x.val), mark, r),
            Op::Movea => self.write(Kind::Quiet, only(sums::sum(y.val, x.val)), mark, r),
            Op::Movhi => {
                let high = extend::high_half(x.val);
                self.write(Kind::Quiet, only(sums::sum(y.val, high)), mark, r)
            }
            Op::Andi => self.write(Kind::Mask, only(y.val & x.val), mark, r),
        }
    }
}
