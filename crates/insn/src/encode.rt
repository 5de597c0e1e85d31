// From instructions to halfwords. An operand out of its range is refused where its field is taken.
#![tactic(auto, unfolding(crate::specs::Coding::encode, crate::specs::Coding::in_range, crate::specs::Coding::halfwords, crate::specs::Coding::reg_code, crate::specs::Coding::imm5_code, crate::specs::Coding::imm16_code, crate::specs::Coding::bit_code))]

ghost use Rattle.std.specs.Prelude.{◌≡◌, cond, ◌&&◌, [], ◌%◌, ◌^◌, ◌<◌};
ghost use Rattle.insn.specs.Coding.{imm5_shifts, imm16_plain, short_transfer, long_transfer, short, two_of, is_reg, is_signed, is_unsigned, multiple, is_short_disp, is_long_disp, in_range, halfwords, checked, encode, DONE, FIELD, number, listed};

use crate::fields::Fields;
use crate::{
    BitOp, EncodeError, HALFWORD_VALUES, Halfwords, Imm5Op, Imm16Op, Insn, RegOp, ShiftOp, Size,
    Way, decode,
};

// The halfwords of an instruction, or FIELD exactly if an operand is out of its range; the order's numbers say it again.
pub fn encode(i: Insn) -> Result<Halfwords, EncodeError>
    ensures { (result ≡ encode i) × (number result ≡ cond (in_range i) DONE FIELD) × (listed result ≡ cond (in_range i) (listed (Ok (halfwords i))) []) }
{
    match i {
        Insn::Reg { op, reg1, reg2 } => reg(op, reg1, reg2),
        Insn::Jmp { reg1 } => jmp(reg1),
        Insn::Imm5 { op, imm, reg2 } => imm5(op, imm, reg2),
        Insn::Sld { size, disp, reg2 } => short_transfer(Way::Load, size, disp, reg2),
        Insn::Sst { size, disp, reg2 } => short_transfer(Way::Store, size, disp, reg2),
        Insn::Bcond { cond, disp } => bcond(cond, disp),
        Insn::Imm16 {
            op,
            imm,
            reg1,
            reg2,
        } => imm16(op, imm, reg1, reg2),
        Insn::Ld {
            size,
            disp,
            reg1,
            reg2,
        } => long_transfer(Way::Load, size, disp, reg1, reg2),
        Insn::St {
            size,
            disp,
            reg1,
            reg2,
        } => long_transfer(Way::Store, size, disp, reg1, reg2),
        Insn::Jarl { disp, reg2 } => jarl(disp, reg2),
        Insn::Bit {
            op,
            bit,
            disp,
            reg1,
        } => bit_insn(op, bit, disp, reg1),
        Insn::Setf { cond, reg2 } => setf(cond, reg2),
        Insn::Ldsr { reg2, regid } => ldsr(reg2, regid),
        Insn::Stsr { regid, reg2 } => stsr(regid, reg2),
        Insn::Shift { op, reg1, reg2 } => shift(op, reg1, reg2),
        Insn::Trap { vector } => trap(vector),
        Insn::Halt => Ok(Halfwords::Two(0x07E0, 0x0120)),
        Insn::Reti => Ok(Halfwords::Two(0x07E0, 0x0140)),
        Insn::Di => Ok(Halfwords::Two(0x07E0, 0x0160)),
        Insn::Ei => Ok(Halfwords::Two(0x87E0, 0x0160)),
    }
}

fn reg(op: RegOp, reg1: u32, reg2: u32) -> Result<Halfwords, EncodeError>
    ensures { result ≡ encode (Insn.Reg op reg1 reg2) }
{
    let fields = Fields {
        reg2: register(reg2)?,
        opcode: op as u32,
        reg1: register(reg1)?,
    };
    Ok(fields.one())
}

fn jmp(reg1: u32) -> Result<Halfwords, EncodeError>
    ensures { result ≡ encode (Insn.Jmp reg1) }
{
    let fields = Fields {
        reg2: 0,
        opcode: 0b000011,
        reg1: register(reg1)?,
    };
    Ok(fields.one())
}

fn imm5(op: Imm5Op, imm: u32, reg2: u32) -> Result<Halfwords, EncodeError>
    ensures { result ≡ encode (Insn.Imm5 op imm reg2) }
{
    let fields = Fields {
        reg2: register(reg2)?,
        opcode: op as u32,
        reg1: immediate::<5>(imm5_shifts(op), imm)?,
    };
    Ok(fields.one())
}

fn short_transfer(way: Way, size: Size, disp: u32, reg2: u32) -> Result<Halfwords, EncodeError>
    ensures { result ≡ encode (short_transfer way size disp reg2) }
{
    let disp = short_disp(size, disp)?;
    let store = way as u32;
    match size {
        Size::Byte => short(0b011000 + 4 * store, disp, reg2),
        Size::Half => short(0b100000 + 4 * store, disp / 2, reg2),
        // one opcode for both, and bit 0 says which
        Size::Word => short(0b101000, disp / 4 * 2 + store, reg2),
    }
}

fn bcond(cond: u32, disp: u32) -> Result<Halfwords, EncodeError>
    ensures { result ≡ encode (Insn.Bcond cond disp) }
{
    let bits = signed::<9>(multiple(2, disp)?)?;
    let fields = Fields {
        reg2: bits / 16,
        opcode: 0b101100 + bits / 4 % 4,
        reg1: bits / 2 % 2 * 16 + unsigned::<4>(cond)?,
    };
    Ok(fields.one())
}

fn imm16(op: Imm16Op, imm: u32, reg1: u32, reg2: u32) -> Result<Halfwords, EncodeError>
    ensures { result ≡ encode (Insn.Imm16 op imm reg1 reg2) }
{
    long(
        op as u32,
        reg1,
        reg2,
        immediate::<16>(imm16_plain(op), imm)?,
    )
}

fn long_transfer(
    way: Way,
    size: Size,
    disp: u32,
    reg1: u32,
    reg2: u32,
) -> Result<Halfwords, EncodeError>
    ensures { result ≡ encode (long_transfer way size disp reg1 reg2) }
{
    let disp = long_disp(size, disp)?;
    let opcode = 0b111000 + 2 * way as u32;
    match size {
        Size::Byte => long(opcode, reg1, reg2, disp),
        Size::Half => long(opcode + 1, reg1, reg2, disp),
        Size::Word => long(opcode + 1, reg1, reg2, disp + 1),
    }
}

fn jarl(disp: u32, reg2: u32) -> Result<Halfwords, EncodeError>
    ensures { result ≡ encode (Insn.Jarl disp reg2) }
{
    let bits = signed::<22>(multiple(2, disp)?)?;
    let fields = Fields {
        reg2: register(reg2)?,
        opcode: 0b111100 + bits / 0x200000,
        reg1: bits / HALFWORD_VALUES % 32,
    };
    Ok(fields.two(bits % HALFWORD_VALUES))
}

fn bit_insn(op: BitOp, bit: u32, disp: u32, reg1: u32) -> Result<Halfwords, EncodeError>
    ensures { result ≡ encode (Insn.Bit op bit disp reg1) }
{
    let fields = Fields {
        reg2: op as u32 * 8 + unsigned::<3>(bit)?,
        opcode: 0b111110,
        reg1: register(reg1)?,
    };
    Ok(fields.two(signed::<16>(disp)?))
}

fn setf(cond: u32, reg2: u32) -> Result<Halfwords, EncodeError>
    ensures { result ≡ encode (Insn.Setf cond reg2) }
{
    let fields = Fields {
        reg2: register(reg2)?,
        opcode: 0b111111,
        reg1: unsigned::<4>(cond)?,
    };
    Ok(fields.two(0x0000))
}

fn ldsr(reg2: u32, regid: u32) -> Result<Halfwords, EncodeError>
    ensures { result ≡ encode (Insn.Ldsr reg2 regid) }
{
    let fields = Fields {
        reg2: checked(decode::loads(regid), regid)?,
        opcode: 0b111111,
        reg1: register(reg2)?,
    };
    Ok(fields.two(0x0020))
}

fn stsr(regid: u32, reg2: u32) -> Result<Halfwords, EncodeError>
    ensures { result ≡ encode (Insn.Stsr regid reg2) }
{
    let fields = Fields {
        reg2: register(reg2)?,
        opcode: 0b111111,
        reg1: checked(decode::stores(regid), regid)?,
    };
    Ok(fields.two(0x0040))
}

fn shift(op: ShiftOp, reg1: u32, reg2: u32) -> Result<Halfwords, EncodeError>
    ensures { result ≡ encode (Insn.Shift op reg1 reg2) }
{
    long(0b111111, reg1, reg2, op as u32)
}

fn trap(vector: u32) -> Result<Halfwords, EncodeError>
    ensures { result ≡ encode (Insn.Trap vector) }
{
    let fields = Fields {
        reg2: 0,
        opcode: 0b111111,
        reg1: unsigned::<5>(vector)?,
    };
    Ok(fields.two(0x0100))
}

// One halfword, with a field of up to seven bits that opcode and reg1 share.
fn short(opcode: u32, field: u32, reg2: u32) -> Result<Halfwords, EncodeError>
    requires { (opcode < 60) × (field < 128) }
    ensures { result ≡ cond (is_reg reg2) (Ok (short opcode field reg2)) (Err EncodeError.Field) }
{
    let fields = Fields {
        reg2: register(reg2)?,
        opcode: opcode + field / 32,
        reg1: field % 32,
    };
    Ok(fields.one())
}

// Two halfwords, with two registers.
fn long(opcode: u32, reg1: u32, reg2: u32, second: u32) -> Result<Halfwords, EncodeError>
    requires { (opcode < 64) × (second < 2 ^ 16) }
    ensures { result ≡ cond (is_reg reg1 && is_reg reg2) (Ok (two_of reg2 opcode reg1 second)) (Err EncodeError.Field) }
{
    let fields = Fields {
        reg2: register(reg2)?,
        opcode,
        reg1: register(reg1)?,
    };
    Ok(fields.two(second))
}

// A field's bits, if its operand is in range.
fn checked(ok: bool, bits: u32) -> Result<u32, EncodeError>
    ensures { result ≡ checked ok bits }
{
    ok.then_some(bits).ok_or(EncodeError::Field)
}

fn register(n: u32) -> Result<u32, EncodeError>
    ensures { result ≡ checked (is_reg n) n }
{
    unsigned::<5>(n)
}

fn unsigned<const K: u32>(n: u32) -> Result<u32, EncodeError>
    requires { K < 32 }
    ensures { result ≡ checked (is_unsigned K n) n }
{
    checked(n < 1 << K, n)
}

// A word that K bits hold by its sign. A negative one is above the complement of the sign's bit.
fn signed<const K: u32>(n: u32) -> Result<u32, EncodeError>
    requires { (0 < K) × (K < 32) }
    ensures { result ≡ checked (is_signed K n) (n % 2 ^ K) }
{
    let half = 1u32 << (K - 1);
    checked(n < half || !half < n, n % (1 << K))
}

fn multiple(k: u32, n: u32) -> Result<u32, EncodeError>
    requires { 0 < k }
    ensures { result ≡ checked (multiple k n) n }
{
    checked(n % k == 0, n)
}

// Shift amounts have no sign, nor have a high half and logical immediates.
fn immediate<const K: u32>(plain: bool, imm: u32) -> Result<u32, EncodeError>
    requires { (0 < K) × (K < 32) }
    ensures { result ≡ cond plain (checked (is_unsigned K imm) imm) (checked (is_signed K imm) (imm % 2 ^ K)) }
{
    if plain {
        unsigned::<K>(imm)
    } else {
        signed::<K>(imm)
    }
}

fn imm5_shifts(op: Imm5Op) -> bool
    ensures { result ≡ imm5_shifts op }
{
    matches!(op, Imm5Op::Shr5 | Imm5Op::Sar5 | Imm5Op::Shl5)
}

fn imm16_plain(op: Imm16Op) -> bool
    ensures { result ≡ imm16_plain op }
{
    matches!(
        op,
        Imm16Op::Movhi | Imm16Op::Ori | Imm16Op::Xori | Imm16Op::Andi
    )
}

// Displacements of SLD and SST, and of LD and ST: low bits that are not stored are 0.
fn short_disp(size: Size, disp: u32) -> Result<u32, EncodeError>
    ensures { result ≡ checked (is_short_disp size disp) disp }
{
    match size {
        Size::Byte => unsigned::<7>(disp),
        Size::Half => unsigned::<8>(multiple(2, disp)?),
        Size::Word => unsigned::<8>(multiple(4, disp)?),
    }
}

fn long_disp(size: Size, disp: u32) -> Result<u32, EncodeError>
    ensures { result ≡ checked (is_long_disp size disp) (disp % 2 ^ 16) }
{
    match size {
        Size::Byte => signed::<16>(disp),
        Size::Half => signed::<16>(multiple(2, disp)?),
        Size::Word => signed::<16>(multiple(2, disp)?),
    }
}
