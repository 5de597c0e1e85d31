// The forms of instructions: each writes the line of one operation. Two with the same operands differ in their closure, which is
// all that either has.
use crate::lists::{NONE, NUMBERS, REGISTERS, values};
use crate::tally::Tally;
use insn::encode::encode;
use insn::{BitOp, Imm5Op, Imm16Op, Insn, RegOp, ShiftOp, Size};
use std::io;

pub(crate) fn reg(rt: &impl Print, name: &str, op: RegOp) -> io::Result<()> {
    let insn = |reg1, reg2, _| Insn::Reg { op, reg1, reg2 };
    line(rt, name, walk(&REGISTERS, &REGISTERS, &NONE, insn))
}

pub(crate) fn jmp(rt: &impl Print, name: &str) -> io::Result<()> {
    let insn = |reg1, _, _| Insn::Jmp { reg1 };
    line(rt, name, walk(&REGISTERS, &NONE, &NONE, insn))
}

pub(crate) fn imm5(rt: &impl Print, name: &str, op: Imm5Op) -> io::Result<()> {
    let insn = |reg2, imm, _| Insn::Imm5 { op, imm, reg2 };
    line(rt, name, walk(&REGISTERS, &values(), &NONE, insn))
}

pub(crate) fn sld(rt: &impl Print, name: &str, size: Size) -> io::Result<()> {
    let insn = |reg2, disp, _| Insn::Sld { size, disp, reg2 };
    line(rt, name, walk(&REGISTERS, &values(), &NONE, insn))
}

pub(crate) fn sst(rt: &impl Print, name: &str, size: Size) -> io::Result<()> {
    let insn = |reg2, disp, _| Insn::Sst { size, disp, reg2 };
    line(rt, name, walk(&REGISTERS, &values(), &NONE, insn))
}

pub(crate) fn bcond(rt: &impl Print, name: &str) -> io::Result<()> {
    let insn = |cond, disp, _| Insn::Bcond { cond, disp };
    line(rt, name, walk(&NUMBERS, &values(), &NONE, insn))
}

pub(crate) fn imm16(rt: &impl Print, name: &str, op: Imm16Op) -> io::Result<()> {
    let insn = |reg1, reg2, imm| Insn::Imm16 {
        op,
        imm,
        reg1,
        reg2,
    };
    line(rt, name, walk(&REGISTERS, &REGISTERS, &values(), insn))
}

pub(crate) fn ld(rt: &impl Print, name: &str, size: Size) -> io::Result<()> {
    let insn = |reg1, reg2, disp| Insn::Ld {
        size,
        disp,
        reg1,
        reg2,
    };
    line(rt, name, walk(&REGISTERS, &REGISTERS, &values(), insn))
}

pub(crate) fn st(rt: &impl Print, name: &str, size: Size) -> io::Result<()> {
    let insn = |reg1, reg2, disp| Insn::St {
        size,
        disp,
        reg1,
        reg2,
    };
    line(rt, name, walk(&REGISTERS, &REGISTERS, &values(), insn))
}

pub(crate) fn jarl(rt: &impl Print, name: &str) -> io::Result<()> {
    let insn = |reg2, disp, _| Insn::Jarl { disp, reg2 };
    line(rt, name, walk(&REGISTERS, &values(), &NONE, insn))
}

pub(crate) fn bit(rt: &impl Print, name: &str, op: BitOp) -> io::Result<()> {
    let insn = |reg1, bit, disp| Insn::Bit {
        op,
        bit,
        disp,
        reg1,
    };
    line(rt, name, walk(&REGISTERS, &NUMBERS, &values(), insn))
}

pub(crate) fn setf(rt: &impl Print, name: &str) -> io::Result<()> {
    let insn = |reg2, cond, _| Insn::Setf { cond, reg2 };
    line(rt, name, walk(&REGISTERS, &NUMBERS, &NONE, insn))
}

pub(crate) fn ldsr(rt: &impl Print, name: &str) -> io::Result<()> {
    let insn = |reg2, regid, _| Insn::Ldsr { reg2, regid };
    line(rt, name, walk(&REGISTERS, &NUMBERS, &NONE, insn))
}

pub(crate) fn stsr(rt: &impl Print, name: &str) -> io::Result<()> {
    let insn = |reg2, regid, _| Insn::Stsr { regid, reg2 };
    line(rt, name, walk(&REGISTERS, &NUMBERS, &NONE, insn))
}

pub(crate) fn shift(rt: &impl Print, name: &str, op: ShiftOp) -> io::Result<()> {
    let insn = |reg1, reg2, _| Insn::Shift { op, reg1, reg2 };
    line(rt, name, walk(&REGISTERS, &REGISTERS, &NONE, insn))
}

pub(crate) fn trap(rt: &impl Print, name: &str) -> io::Result<()> {
    let insn = |vector, _, _| Insn::Trap { vector };
    line(rt, name, walk(&NUMBERS, &NONE, &NONE, insn))
}

// No operands.
pub(crate) fn alone(rt: &impl Print, name: &str, insn: Insn) -> io::Result<()> {
    line(rt, name, walk(&NONE, &NONE, &NONE, |_, _, _| insn))
}

fn line(rt: &impl Print, name: &str, tally: Tally) -> io::Result<()> {
    println!(rt; "{name}: {tally}")
}

// The instructions of one operation, with every choice of three operands: the first changes with every instruction.
fn walk<F: Fn(u32, u32, u32) -> Insn>(
    first: &[u32],
    second: &[u32],
    third: &[u32],
    insn: F,
) -> Tally
    requires { F.IsAlwaysCallable insn }
{
    let mut tally = Tally::default();
    for c in third {
        for b in second {
            for a in first {
                tally.note(encode(insn(*a, *b, *c)));
            }
        }
    }
    tally
}
