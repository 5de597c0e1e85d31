// Every first halfword, with second ones that tell the arms of decoding apart: each pair is decoded, an instruction is encoded
// again and compared, and the answers are counted. It writes a line for each second halfword, with the numbers of instructions,
// illegal codes, undefined words and mismatches.
//
// What it has to write, by the order's table. A first halfword has 32 * 64 * 32 values, 1,024 for each opcode.
// - Opcodes below 110000 do not look at the second halfword. 000011 is JMP, with reg2 field 0: 32 instructions, 992 undefined.
//   The other 47 are 1,024 instructions each, 48,128 in all.
// - 110000-110111, eight opcodes with an immediate: 8,192 instructions. 111000-111011, LD and ST, whichever bit 16 is: 4,096.
//   111110, whichever bits 15-14 are: 1,024.
// - 111100 and 111101 are JARL if the second halfword is even: 2,048 instructions; else 2,048 undefined.
// So an even second halfword has 48,128 + 32 + 8,192 + 4,096 + 1,024 + 2,048 = 63,520 instructions and 992 undefined, and an odd
// one 61,472 instructions and 3,040 undefined. To these come the 1,024 of 111111, by the second halfword:
//   0000   SETF, bit 4 = 0: 32 * 16 = 512 instructions, 512 undefined
//   0020   LDSR, numbers 0-3 and 5: 5 * 32 = 160 instructions, 864 undefined
//   0040   STSR, numbers 0-5: 6 * 32 = 192 instructions, 832 undefined
//   0080 00a0 00c0   shifts: 1,024 instructions
//   0100   TRAP, bits 15-11 = 0: 32 instructions, 992 undefined
//   0120 0140   HALT, RETI: 1 instruction each, 1,023 undefined
//   0160   DI and EI: 2 instructions, 1,022 undefined
//   0001 0060 00e0 0161 017f   no number, bits 26-23 below 0011: 1,024 undefined
//   0800 0820 8000 f840   bits 26-23 are 0000, for bit 27 and up do not count there: 1,024 undefined
//   0180 0181 0200 07ff 7fff 8180 ffff   bits 26-23 from 0011 up: 1,024 illegal
#![tactic(auto)]

use insn::decode::{decode, is_long};
use insn::encode::encode;
use insn::{Decoded, Halfwords};
use std::io;

const SECONDS: [u16; 26] = [
    0x0000, 0x0001, 0x0020, 0x0040, 0x0060, 0x0080, 0x00A0, 0x00C0, 0x00E0, 0x0100, 0x0120, 0x0140,
    0x0160, 0x0161, 0x017F, 0x0180, 0x0181, 0x0200, 0x07FF, 0x0800, 0x0820, 0x7FFF, 0x8000, 0x8180,
    0xF840, 0xFFFF,
];

// What a pair of halfwords is. A mismatch is an instruction that is not encoded as the pair that it came from.
#[derive(Clone, Copy)]
enum Kind {
    Instruction,
    Illegal,
    Undefined,
    Mismatch,
}

// How many kinds there are; a kind as a number is its place in a line of output.
const KINDS: usize = 4;

fn main(rt: HostRuntime) -> io::Result<()> {
    for second in SECONDS {
        let counts = counts(second);
        print!(rt; "{second:04x}")?;
        for count in counts {
            print!(rt; " {count}")?;
        }
        println!(rt)?;
    }
    Ok(())
}

// How many first halfwords are of each kind, with one second halfword. One pass counts all four, as decoding takes the time. No count
// passes 65,536, so none wraps.
fn counts(second: u16) -> [u32; KINDS] {
    let mut counts = [0u32; KINDS];
    for first in 0..=u16::MAX {
        let kind = kind_of(first, second) as usize;
        counts[kind] = counts[kind].wrapping_add(1);
    }
    counts
}

fn kind_of(first: u16, second: u16) -> Kind {
    match decode(first, second) {
        Decoded::Valid(insn) => {
            if encode(insn) == Ok(halfwords(first, second)) {
                Kind::Instruction
            } else {
                Kind::Mismatch
            }
        }
        Decoded::Illegal => Kind::Illegal,
        Decoded::Undefined => Kind::Undefined,
    }
}

// The halfwords of the instruction that a pair begins with.
fn halfwords(first: u16, second: u16) -> Halfwords {
    if is_long(first) {
        Halfwords::Two(first, second)
    } else {
        Halfwords::One(first)
    }
}
