// The instructions of the base, and the halfwords that spell them. The number of an operation is the field that spells it: the opcode,
// at shifts by a register the second halfword, at bits of memory bits 15-14.
#![tactic(auto)]

pub mod decode;
pub mod encode;
mod fields;

// How many values a halfword has.
pub(crate) const HALFWORD_VALUES: u32 = 0x10000;

// Format I: register and register. JMP, which has one operand, is an instruction of its own.
#[derive(Clone, Copy)]
pub enum RegOp {
    Mov = 0b000000,
    Not = 0b000001,
    Divh = 0b000010,
    Satsubr = 0b000100,
    Satsub = 0b000101,
    Satadd = 0b000110,
    Mulh = 0b000111,
    Or = 0b001000,
    Xor = 0b001001,
    And = 0b001010,
    Tst = 0b001011,
    Subr = 0b001100,
    Sub = 0b001101,
    Add = 0b001110,
    Cmp = 0b001111,
}

// Format II: a 5-bit immediate and a register. The 5 in a name tells it from the register form.
#[derive(Clone, Copy)]
pub enum Imm5Op {
    Mov5 = 0b010000,
    Satadd5 = 0b010001,
    Add5 = 0b010010,
    Cmp5 = 0b010011,
    Shr5 = 0b010100,
    Sar5 = 0b010101,
    Shl5 = 0b010110,
    Mulh5 = 0b010111,
}

// Format VI: a 16-bit immediate, a register and a target.
#[derive(Clone, Copy)]
pub enum Imm16Op {
    Addi = 0b110000,
    Movea = 0b110001,
    Movhi = 0b110010,
    Satsubi = 0b110011,
    Ori = 0b110100,
    Xori = 0b110101,
    Andi = 0b110110,
    Mulhi = 0b110111,
}

// Format IX: shifts by a register.
#[derive(Clone, Copy)]
pub enum ShiftOp {
    Shr = 0x0080,
    Sar = 0x00A0,
    Shl = 0x00C0,
}

// Format VIII: bits of a byte in memory.
#[derive(Clone, Copy)]
pub enum BitOp {
    Set1 = 0b00,
    Not1 = 0b01,
    Clr1 = 0b10,
    Tst1 = 0b11,
}

#[derive(Clone, Copy)]
pub enum Size {
    Byte,
    Half,
    Word,
}

// Which way a transfer between a register and memory goes, by the bit that says so.
#[derive(Clone, Copy)]
pub(crate) enum Way {
    Load = 0,
    Store = 1,
}

// An instruction and its operands. Immediates and displacements are the words that they stand for, a negative one in two's
// complement: -2 is FFFFFFFEH.
#[derive(Clone, Copy)]
pub enum Insn {
    Reg {
        op: RegOp,
        reg1: u32,
        reg2: u32,
    },
    Jmp {
        reg1: u32,
    },
    Imm5 {
        op: Imm5Op,
        imm: u32,
        reg2: u32,
    },
    Sld {
        size: Size,
        disp: u32,
        reg2: u32,
    },
    Sst {
        size: Size,
        disp: u32,
        reg2: u32,
    },
    Bcond {
        cond: u32,
        disp: u32,
    },
    Imm16 {
        op: Imm16Op,
        imm: u32,
        reg1: u32,
        reg2: u32,
    },
    Ld {
        size: Size,
        disp: u32,
        reg1: u32,
        reg2: u32,
    },
    St {
        size: Size,
        disp: u32,
        reg1: u32,
        reg2: u32,
    },
    Jarl {
        disp: u32,
        reg2: u32,
    },
    Bit {
        op: BitOp,
        bit: u32,
        disp: u32,
        reg1: u32,
    },
    Setf {
        cond: u32,
        reg2: u32,
    },
    Ldsr {
        reg2: u32,
        regid: u32,
    },
    Stsr {
        regid: u32,
        reg2: u32,
    },
    Shift {
        op: ShiftOp,
        reg1: u32,
        reg2: u32,
    },
    Trap {
        vector: u32,
    },
    Halt,
    Reti,
    Di,
    Ei,
}

// What a halfword, or two, stand for. The order names this form: an enum whose instruction case holds the instruction, beside illegal
// code and undefined. These two are answers and no errors: a step takes the exception for the one, and ends the run at the other.
#[derive(Clone, Copy)]
pub enum Decoded {
    Valid(Insn),
    Illegal,
    Undefined,
}

// The halfwords that spell an instruction.
#[derive(Clone, Copy, PartialEq, Eq)]
pub enum Halfwords {
    One(u16),
    Two(u16, u16),
}

// Why an instruction has none: an operand is out of its range.
#[derive(Clone, Copy, PartialEq, Eq)]
pub enum EncodeError {
    Field,
}
