// From halfwords to instructions.
#![tactic(auto, unfolding(crate::specs::Coding::decode, crate::specs::Coding::decode_fields, crate::specs::Coding::decode_extended, crate::specs::Coding::reg_op, crate::specs::Coding::imm5_op, crate::specs::Coding::imm16_op, crate::specs::Coding::bit_op))]

ghost use Rattle.std.specs.Prelude.{◌≡◌, true, false, cond, ℕ, ◌-◌, ◌%◌, ◌^◌, ◌≤◌, ◌<◌, eqb};
ghost use Rattle.insn.specs.Coding.{reg2_of, opcode_of, reg1_of, long, bit_op, loads, stores, short_transfer, long_transfer, when, disp7, disp9, disp16, disp22, decode_extended, decode_fields, decode};

use crate::{BitOp, Decoded, HALFWORD_VALUES, Imm5Op, Imm16Op, Insn, RegOp, ShiftOp, Size, Way};
use word::extend;

// A halfword's fields: bits 15-11, 10-5 and 4-0.
pub fn reg2_of(h: u32) -> u32
    ensures { result ≡ reg2_of h }
{
    h / 2048
}

pub fn opcode_of(h: u32) -> u32
    ensures { result ≡ opcode_of h }
{
    h / 32 % 64
}

pub fn reg1_of(h: u32) -> u32
    ensures { result ≡ reg1_of h }
{
    h % 32
}

// A second halfword follows.
pub fn is_long(first: u16) -> bool
    ensures { result ≡ long first }
{
    0b110000 <= opcode_of(u32::from(first))
}

// What a first halfword stands for, with the second one if the first is long; else the second is not looked at.
pub fn decode(first: u16, second: u16) -> Decoded
    ensures { result ≡ decode first second }
{
    let h = u32::from(first);
    let opcode = opcode_of(h);
    match opcode {
        0b000000..=0b101111 => short(h, reg2_of(h), opcode, reg1_of(h)),
        _ => long(reg2_of(h), opcode, reg1_of(h), u32::from(second)),
    }
}

// A short form, with its fields: opcodes up to 101111. The order names the form of this match, and of the next two: by the opcode's
// number with ranges, then by the second halfword. The fields go one by one: a value like `Fields`, built anew for each call, is no
// plainer.
pub fn short(h: u32, reg2: u32, opcode: u32, reg1: u32) -> Decoded
    requires { (h < 2 ^ 16) × (reg2 ≡ reg2_of h) × (opcode ≡ opcode_of h) × (reg1 ≡ reg1_of h) × (opcode ≤ 0b101111) }
    ensures { (w : ℕ) → result ≡ decode h w }
{
    match opcode {
        0b000000..=0b010111 => operation(reg2, opcode, reg1),
        0b011000..=0b011011 => short_transfer(Way::Load, Size::Byte, disp7(h), reg2),
        0b011100..=0b011111 => short_transfer(Way::Store, Size::Byte, disp7(h), reg2),
        0b100000..=0b100011 => short_transfer(Way::Load, Size::Half, disp7(h) * 2, reg2),
        0b100100..=0b100111 => short_transfer(Way::Store, Size::Half, disp7(h) * 2, reg2),
        0b101000..=0b101011 => {
            // the two share their opcodes, and bit 0 says which
            let disp = disp7(h) / 2 * 4;
            if h % 2 == 0 {
                short_transfer(Way::Load, Size::Word, disp, reg2)
            } else {
                short_transfer(Way::Store, Size::Word, disp, reg2)
            }
        }
        _ => Decoded::Valid(Insn::Bcond {
            cond: h % 16,
            disp: disp9(h),
        }),
    }
}

// 000000-010111: register and register, JMP, and 5-bit immediates.
pub fn operation(reg2: u32, opcode: u32, reg1: u32) -> Decoded
    requires { (reg2 < 32) × (opcode ≤ 0b010111) × (reg1 < 32) }
    ensures { (w : ℕ) → result ≡ decode_fields reg2 opcode reg1 w }
{
    match opcode {
        0b000000 => reg(RegOp::Mov, reg1, reg2),
        0b000001 => reg(RegOp::Not, reg1, reg2),
        0b000010 => reg(RegOp::Divh, reg1, reg2),
        0b000011 => when(reg2 == 0, Insn::Jmp { reg1 }),
        0b000100 => reg(RegOp::Satsubr, reg1, reg2),
        0b000101 => reg(RegOp::Satsub, reg1, reg2),
        0b000110 => reg(RegOp::Satadd, reg1, reg2),
        0b000111 => reg(RegOp::Mulh, reg1, reg2),
        0b001000 => reg(RegOp::Or, reg1, reg2),
        0b001001 => reg(RegOp::Xor, reg1, reg2),
        0b001010 => reg(RegOp::And, reg1, reg2),
        0b001011 => reg(RegOp::Tst, reg1, reg2),
        0b001100 => reg(RegOp::Subr, reg1, reg2),
        0b001101 => reg(RegOp::Sub, reg1, reg2),
        0b001110 => reg(RegOp::Add, reg1, reg2),
        0b001111 => reg(RegOp::Cmp, reg1, reg2),
        0b010000 => imm5(Imm5Op::Mov5, extend::sign_extend::<5>(reg1), reg2),
        0b010001 => imm5(Imm5Op::Satadd5, extend::sign_extend::<5>(reg1), reg2),
        0b010010 => imm5(Imm5Op::Add5, extend::sign_extend::<5>(reg1), reg2),
        0b010011 => imm5(Imm5Op::Cmp5, extend::sign_extend::<5>(reg1), reg2),
        0b010100 => imm5(Imm5Op::Shr5, extend::zero_extend::<5>(reg1), reg2),
        0b010101 => imm5(Imm5Op::Sar5, extend::zero_extend::<5>(reg1), reg2),
        0b010110 => imm5(Imm5Op::Shl5, extend::zero_extend::<5>(reg1), reg2),
        0b010111 => imm5(Imm5Op::Mulh5, extend::sign_extend::<5>(reg1), reg2),
        // no opcode is left
        _ => Decoded::Undefined,
    }
}

// 110000-111111: the forms with a second halfword.
pub fn long(reg2: u32, opcode: u32, reg1: u32, w: u32) -> Decoded
    requires { (reg2 < 32) × (0b110000 ≤ opcode) × (opcode < 64) × (reg1 < 32) × (w < 2 ^ 16) }
    ensures { result ≡ decode_fields reg2 opcode reg1 w }
{
    match opcode {
        0b110000 => imm16(Imm16Op::Addi, extend::sign_extend::<16>(w), reg1, reg2),
        0b110001 => imm16(Imm16Op::Movea, extend::sign_extend::<16>(w), reg1, reg2),
        0b110010 => imm16(Imm16Op::Movhi, extend::zero_extend::<16>(w), reg1, reg2),
        0b110011 => imm16(Imm16Op::Satsubi, extend::sign_extend::<16>(w), reg1, reg2),
        0b110100 => imm16(Imm16Op::Ori, extend::zero_extend::<16>(w), reg1, reg2),
        0b110101 => imm16(Imm16Op::Xori, extend::zero_extend::<16>(w), reg1, reg2),
        0b110110 => imm16(Imm16Op::Andi, extend::zero_extend::<16>(w), reg1, reg2),
        0b110111 => imm16(Imm16Op::Mulhi, extend::sign_extend::<16>(w), reg1, reg2),
        0b111000 => long_transfer(
            Way::Load,
            Size::Byte,
            extend::sign_extend::<16>(w),
            reg1,
            reg2,
        ),
        0b111001 => half_or_word(Way::Load, reg1, reg2, w),
        0b111010 => long_transfer(
            Way::Store,
            Size::Byte,
            extend::sign_extend::<16>(w),
            reg1,
            reg2,
        ),
        0b111011 => half_or_word(Way::Store, reg1, reg2, w),
        // an arm each: with one for both a step takes up to 0.9 instructions more (docs/SPEED.md)
        0b111100 => jarl(reg2, 0b111100, reg1, w),
        0b111101 => jarl(reg2, 0b111101, reg1, w),
        0b111110 => Decoded::Valid(Insn::Bit {
            op: bit_op(reg2 / 8),
            bit: reg2 % 8,
            disp: extend::sign_extend::<16>(w),
            reg1,
        }),
        0b111111 => extended(reg2, reg1, w),
        // no opcode is left
        _ => Decoded::Undefined,
    }
}

// LD and ST of halfwords and words: bit 0 says the size, and is none of the displacement's.
fn half_or_word(way: Way, reg1: u32, reg2: u32, w: u32) -> Decoded
    requires { w < 2 ^ 16 }
    ensures { result ≡ Decoded.Valid (cond (eqb (w % 2) 0) (long_transfer way Size.Half (disp16 w) reg1 reg2) (long_transfer way Size.Word (disp16 (w - 1)) reg1 reg2)) }
{
    let disp = extend::sign_extend::<16>(w / 2 * 2);
    if w % 2 == 0 {
        long_transfer(way, Size::Half, disp, reg1, reg2)
    } else {
        long_transfer(way, Size::Word, disp, reg1, reg2)
    }
}

// JARL has an even displacement.
fn jarl(reg2: u32, opcode: u32, reg1: u32, w: u32) -> Decoded
    requires { (reg1 < 32) × (w < 2 ^ 16) }
    ensures { result ≡ when (eqb (w % 2) 0) (Insn.Jarl (disp22 opcode reg1 w) reg2) }
{
    when(
        w % 2 == 0,
        Insn::Jarl {
            disp: disp22(opcode, reg1, w),
            reg2,
        },
    )
}

// Opcode 111111, by the second halfword. The ten that are instructions come first: none of them has the bits of the illegal code.
fn extended(reg2: u32, reg1: u32, w: u32) -> Decoded
    requires { (reg2 < 32) × (reg1 < 32) × (w < 2 ^ 16) }
    ensures { result ≡ decode_extended reg2 reg1 w }
{
    match w {
        0x0000 => when(reg1 < 16, Insn::Setf { cond: reg1, reg2 }),
        0x0020 => when(
            loads(reg2),
            Insn::Ldsr {
                reg2: reg1,
                regid: reg2,
            },
        ),
        0x0040 => when(stores(reg1), Insn::Stsr { regid: reg1, reg2 }),
        0x0080 => shift(ShiftOp::Shr, reg1, reg2),
        0x00A0 => shift(ShiftOp::Sar, reg1, reg2),
        0x00C0 => shift(ShiftOp::Shl, reg1, reg2),
        0x0100 => when(reg2 == 0, Insn::Trap { vector: reg1 }),
        0x0120 => when(reg2 == 0 && reg1 == 0, Insn::Halt),
        0x0140 => when(reg2 == 0 && reg1 == 0, Insn::Reti),
        0x0160 => {
            if reg2 == 0 {
                when(reg1 == 0, Insn::Di)
            } else {
                when(reg2 == 16 && reg1 == 0, Insn::Ei)
            }
        }
        _ => {
            if 0b0011 <= w / 128 % 16 {
                Decoded::Illegal
            } else {
                Decoded::Undefined
            }
        }
    }
}

// An instruction, if its fields are right.
fn when(right: bool, i: Insn) -> Decoded
    ensures { result ≡ when right i }
{
    if right {
        Decoded::Valid(i)
    } else {
        Decoded::Undefined
    }
}

// Instructions with several operations or sizes. Each function makes another case of `Insn`: a generic one would need a trait that says
// which, with an impl for each, and be no plainer.
fn reg(op: RegOp, reg1: u32, reg2: u32) -> Decoded
    ensures { result ≡ Decoded.Valid (Insn.Reg op reg1 reg2) }
{
    Decoded::Valid(Insn::Reg { op, reg1, reg2 })
}

fn imm5(op: Imm5Op, imm: u32, reg2: u32) -> Decoded
    ensures { result ≡ Decoded.Valid (Insn.Imm5 op imm reg2) }
{
    Decoded::Valid(Insn::Imm5 { op, imm, reg2 })
}

fn short_transfer(way: Way, size: Size, disp: u32, reg2: u32) -> Decoded
    ensures { result ≡ Decoded.Valid (short_transfer way size disp reg2) }
{
    Decoded::Valid(match way {
        Way::Load => Insn::Sld { size, disp, reg2 },
        Way::Store => Insn::Sst { size, disp, reg2 },
    })
}

fn imm16(op: Imm16Op, imm: u32, reg1: u32, reg2: u32) -> Decoded
    ensures { result ≡ Decoded.Valid (Insn.Imm16 op imm reg1 reg2) }
{
    Decoded::Valid(Insn::Imm16 {
        op,
        imm,
        reg1,
        reg2,
    })
}

fn long_transfer(way: Way, size: Size, disp: u32, reg1: u32, reg2: u32) -> Decoded
    ensures { result ≡ Decoded.Valid (long_transfer way size disp reg1 reg2) }
{
    Decoded::Valid(match way {
        Way::Load => Insn::Ld {
            size,
            disp,
            reg1,
            reg2,
        },
        Way::Store => Insn::St {
            size,
            disp,
            reg1,
            reg2,
        },
    })
}

fn shift(op: ShiftOp, reg1: u32, reg2: u32) -> Decoded
    ensures { result ≡ Decoded.Valid (Insn.Shift op reg1 reg2) }
{
    Decoded::Valid(Insn::Shift { op, reg1, reg2 })
}

// Displacements that are kept in two fields. Those of the first halfword are read off it, bits 6-0, or 15-11 and 6-4.
fn disp7(h: u32) -> u32
    ensures { result ≡ disp7 (opcode_of h) (reg1_of h) }
{
    h % 128
}

// The upper field has the sign, so it alone is extended: that is shorter than to put all bits together first.
#[tactic(auto, unfolding(word::specs::Extend::by_sign))]
fn disp9(h: u32) -> u32
    requires { h < 2 ^ 16 }
    ensures { result ≡ disp9 (reg2_of h) (opcode_of h) (reg1_of h) }
{
    (extend::sign_extend::<5>(h / 2048) << 4) + h / 16 % 8 * 2
}

fn disp22(opcode: u32, reg1: u32, w: u32) -> u32
    requires { (reg1 < 32) × (w < 2 ^ 16) }
    ensures { result ≡ disp22 opcode reg1 w }
{
    extend::sign_extend::<22>((opcode % 2 * 32 + reg1) * HALFWORD_VALUES + w)
}

// Two bits always name an operation, so there is no TryFrom: its error could not come, and would cost the step a branch.
fn bit_op(n: u32) -> BitOp
    requires { n < 4 }
    ensures { result ≡ bit_op n }
{
    match n {
        0b00 => BitOp::Set1,
        0b01 => BitOp::Not1,
        0b10 => BitOp::Clr1,
        _ => BitOp::Tst1,
    }
}

// System numbers that LDSR takes, and STSR.
pub(crate) fn loads(regid: u32) -> bool
    ensures { result ≡ loads regid }
{
    regid < 4 || regid == 5
}

pub(crate) fn stores(regid: u32) -> bool
    ensures { result ≡ stores regid }
{
    regid < 6
}
