// Every operation with operands at the ends of their ranges and beyond, encoded. It writes a line for each operation, in the order
// of the order's table: how many of its instructions have one halfword, how many two, how many are refused, and a sum over all
// their halfwords. tests/walks has the same program in C over the second program, and `make walks` compares.
//
// What it has to write. Of the 8 registers 5 exist; of the 40 numbers 16 are conditions, 8 bits, 32 vectors, 5 system registers
// that LDSR takes and 6 that STSR takes. Of the values, nine around each of 0, 2^4 .. 2^31 and -2^4 .. -2^30, these are in range:
// - n bits with a sign: 5 at the lower end, 4 at the upper one, 9 around each of the 2n - 9 middles between. 5 bits: 9 + 9 = 18.
//   16 bits: 9 + 9 * 23 = 216. Only the even ones: 3, 2, and 5 around a middle. 9 bits: 5 + 5 * 9 = 50. 16 bits: 5 + 5 * 23 = 120.
//   22 bits: 5 + 5 * 35 = 180.
// - n bits without: 5 at 0, 4 at the upper end, 9 around each of the n - 4 middles between. 5 bits: 18. 7 bits: 9 + 9 * 3 = 36.
//   16 bits: 9 + 9 * 12 = 117. Even ones of 8 bits: 3 + 2 + 5 * 4 = 25. Multiples of 4 of 8 bits: 2 + 1 + 3 * 4 = 15.
// So these are encoded, and the rest is refused:
//   reg1, reg2   5 * 5 of 64            JMP         5 of 8            MOV, ADD, .. imm5, and shifts   18 * 5 of 4,032
//   SLD.B, SST.B   36 * 5 of 4,032      SLD.H, SST.H   25 * 5         SLD.W, SST.W   15 * 5
//   Bcond   50 * 16 of 20,160           JARL   180 * 5 of 4,032       SET1, ..   216 * 8 * 5 of 161,280
//   imm16 with a sign   216 * 25 of 32,256, without   117 * 25        LD.B, ST.B   216 * 25, the others   120 * 25
//   SETF   16 * 5 of 320                LDSR   5 * 5, STSR   6 * 5    TRAP   32 of 40
#![tactic(auto)]

mod forms;
mod lists;
mod tally;

use insn::{BitOp, Imm5Op, Imm16Op, Insn, RegOp, ShiftOp, Size};
use std::io;

fn main(rt: HostRuntime) -> io::Result<()> {
    format_1(&rt)?;
    format_2(&rt)?;
    format_3_and_4(&rt)?;
    format_6(&rt)?;
    format_7(&rt)?;
    format_5_and_8(&rt)?;
    format_9_and_10(&rt)
}

fn format_1(rt: &impl Print) -> io::Result<()> {
    forms::reg(rt, "MOV reg1, reg2", RegOp::Mov)?;
    forms::reg(rt, "NOT reg1, reg2", RegOp::Not)?;
    forms::reg(rt, "DIVH reg1, reg2", RegOp::Divh)?;
    forms::jmp(rt, "JMP [reg1]")?;
    forms::reg(rt, "SATSUBR reg1, reg2", RegOp::Satsubr)?;
    forms::reg(rt, "SATSUB reg1, reg2", RegOp::Satsub)?;
    forms::reg(rt, "SATADD reg1, reg2", RegOp::Satadd)?;
    forms::reg(rt, "MULH reg1, reg2", RegOp::Mulh)?;
    forms::reg(rt, "OR reg1, reg2", RegOp::Or)?;
    forms::reg(rt, "XOR reg1, reg2", RegOp::Xor)?;
    forms::reg(rt, "AND reg1, reg2", RegOp::And)?;
    forms::reg(rt, "TST reg1, reg2", RegOp::Tst)?;
    forms::reg(rt, "SUBR reg1, reg2", RegOp::Subr)?;
    forms::reg(rt, "SUB reg1, reg2", RegOp::Sub)?;
    forms::reg(rt, "ADD reg1, reg2", RegOp::Add)?;
    forms::reg(rt, "CMP reg1, reg2", RegOp::Cmp)
}

fn format_2(rt: &impl Print) -> io::Result<()> {
    forms::imm5(rt, "MOV imm5, reg2", Imm5Op::Mov5)?;
    forms::imm5(rt, "SATADD imm5, reg2", Imm5Op::Satadd5)?;
    forms::imm5(rt, "ADD imm5, reg2", Imm5Op::Add5)?;
    forms::imm5(rt, "CMP imm5, reg2", Imm5Op::Cmp5)?;
    forms::imm5(rt, "SHR imm5, reg2", Imm5Op::Shr5)?;
    forms::imm5(rt, "SAR imm5, reg2", Imm5Op::Sar5)?;
    forms::imm5(rt, "SHL imm5, reg2", Imm5Op::Shl5)?;
    forms::imm5(rt, "MULH imm5, reg2", Imm5Op::Mulh5)
}

fn format_3_and_4(rt: &impl Print) -> io::Result<()> {
    forms::sld(rt, "SLD.B disp7[ep], reg2", Size::Byte)?;
    forms::sst(rt, "SST.B reg2, disp7[ep]", Size::Byte)?;
    forms::sld(rt, "SLD.H disp8[ep], reg2", Size::Half)?;
    forms::sst(rt, "SST.H reg2, disp8[ep]", Size::Half)?;
    forms::sld(rt, "SLD.W disp8[ep], reg2", Size::Word)?;
    forms::sst(rt, "SST.W reg2, disp8[ep]", Size::Word)?;
    forms::bcond(rt, "Bcond disp9")
}

fn format_6(rt: &impl Print) -> io::Result<()> {
    forms::imm16(rt, "ADDI imm16, reg1, reg2", Imm16Op::Addi)?;
    forms::imm16(rt, "MOVEA imm16, reg1, reg2", Imm16Op::Movea)?;
    forms::imm16(rt, "MOVHI imm16, reg1, reg2", Imm16Op::Movhi)?;
    forms::imm16(rt, "SATSUBI imm16, reg1, reg2", Imm16Op::Satsubi)?;
    forms::imm16(rt, "ORI imm16, reg1, reg2", Imm16Op::Ori)?;
    forms::imm16(rt, "XORI imm16, reg1, reg2", Imm16Op::Xori)?;
    forms::imm16(rt, "ANDI imm16, reg1, reg2", Imm16Op::Andi)?;
    forms::imm16(rt, "MULHI imm16, reg1, reg2", Imm16Op::Mulhi)
}

fn format_7(rt: &impl Print) -> io::Result<()> {
    forms::ld(rt, "LD.B disp16[reg1], reg2", Size::Byte)?;
    forms::ld(rt, "LD.H disp16[reg1], reg2", Size::Half)?;
    forms::ld(rt, "LD.W disp16[reg1], reg2", Size::Word)?;
    forms::st(rt, "ST.B reg2, disp16[reg1]", Size::Byte)?;
    forms::st(rt, "ST.H reg2, disp16[reg1]", Size::Half)?;
    forms::st(rt, "ST.W reg2, disp16[reg1]", Size::Word)
}

fn format_5_and_8(rt: &impl Print) -> io::Result<()> {
    forms::jarl(rt, "JARL disp22, reg2")?;
    forms::bit(rt, "SET1 bit#3, disp16[reg1]", BitOp::Set1)?;
    forms::bit(rt, "NOT1 bit#3, disp16[reg1]", BitOp::Not1)?;
    forms::bit(rt, "CLR1 bit#3, disp16[reg1]", BitOp::Clr1)?;
    forms::bit(rt, "TST1 bit#3, disp16[reg1]", BitOp::Tst1)
}

fn format_9_and_10(rt: &impl Print) -> io::Result<()> {
    forms::setf(rt, "SETF cccc, reg2")?;
    forms::ldsr(rt, "LDSR reg2, regID")?;
    forms::stsr(rt, "STSR regID, reg2")?;
    forms::shift(rt, "SHR reg1, reg2", ShiftOp::Shr)?;
    forms::shift(rt, "SAR reg1, reg2", ShiftOp::Sar)?;
    forms::shift(rt, "SHL reg1, reg2", ShiftOp::Shl)?;
    forms::trap(rt, "TRAP vector")?;
    forms::alone(rt, "HALT", Insn::Halt)?;
    forms::alone(rt, "RETI", Insn::Reti)?;
    forms::alone(rt, "DI", Insn::Di)?;
    forms::alone(rt, "EI", Insn::Ei)
}
