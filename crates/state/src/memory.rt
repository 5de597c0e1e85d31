// Bytes, halfwords and words of memory, little-endian, and the bits of a byte. Marks stand beside the bytes, in a slice of their own, as the
// host lends both (C interface). A struct of the two was tried: each clause then says of both fields whose borrow they still are.
ghost use Rattle.std.specs.Prelude.{◌≡◌, cond, List, [], ◌∷◌, ℕ, ◌+◌, ◌/◌, ◌%◌, ◌^◌, ◌≤◌, ◌<◌, eqb, length, get_or, set};
ghost use Rattle.machine.specs.Marked.{both, lift1, lift_all, cell, edit};
ghost use Rattle.machine.specs.Memory.{width, aligned, bytes_at, little_endian, extended, put_bytes, changed, tests};

use insn::{BitOp, Size};
use machine::Tv;
use word::extend;

pub fn aligned(size: Size, a: u32) -> u32
    ensures { result ≡ aligned size a }
{
    match size {
        Size::Byte => a,
        Size::Half => a / 2 * 2,
        Size::Word => a / 4 * 4,
    }
}

// One, two and four bytes as a number: those of memory, and their marks, of which one is set exactly if the number is not 0. Each has a line
// of its own, here and below, where they are written: one function over a count of bytes would be a loop, and each says for its own size
// that the bytes at p lie in the slice.
fn byte(mem: &[u8], p: usize) -> u32
    requires { p < length mem.now }
    ensures { (result ≡ get_or mem.now p 0) × (result < 2 ^ 8) }
{
    u32::from(mem[p])
}

#[tactic(auto, unfolding(machine::specs::Memory::little_endian))]
fn half(mem: &[u8], p: usize) -> u32
    requires { p + 2 ≤ length mem.now }
    ensures { (result ≡ little_endian (get_or mem.now p 0 ∷ get_or mem.now (p + 1) 0 ∷ [])) × (result < 2 ^ 16) }
{
    u32::from(u16::from_le_bytes([mem[p], mem[p + 1]]))
}

#[tactic(auto, unfolding(machine::specs::Memory::little_endian))]
fn word(mem: &[u8], p: usize) -> u32
    requires { p + 4 ≤ length mem.now }
    ensures { result ≡ little_endian (get_or mem.now p 0 ∷ get_or mem.now (p + 1) 0 ∷ get_or mem.now (p + 2) 0 ∷ get_or mem.now (p + 3) 0 ∷ []) }
{
    u32::from_le_bytes([mem[p], mem[p + 1], mem[p + 2], mem[p + 3]])
}

// A load of one, two or four bytes: by its sign, and marked if one of them is.
#[tactic(auto, using(crate::proofs::Bytes::some_marked), unfolding(machine::specs::Memory::bytes_at, machine::specs::Memory::extended, machine::specs::Memory::little_endian))]
pub fn load(size: Size, mem: &[u8], marks: &[u8], p: usize) -> Tv
    requires { (p + width size ≤ length mem.now) × (length mem.now ≡ length marks.now) }
    ensures { result ≡ lift_all (extended size) (bytes_at (both mem.now marks.now) p size) }
{
    match size {
        Size::Byte => Tv {
            val: extend::sign_extend::<8>(byte(mem, p)),
            mark: byte(marks, p) != 0,
        },
        Size::Half => Tv {
            val: extend::sign_extend::<16>(half(mem, p)),
            mark: half(marks, p) != 0,
        },
        Size::Word => Tv {
            val: word(mem, p),
            mark: word(marks, p) != 0,
        },
    }
}

// The halfword of an instruction.
#[tactic(auto, using(crate::proofs::Bytes::some_marked), unfolding(machine::specs::Memory::bytes_at))]
pub fn fetch(mem: &[u8], marks: &[u8], p: usize) -> Tv
    requires { (p + 2 ≤ length mem.now) × (length mem.now ≡ length marks.now) }
    ensures { (result ≡ lift_all little_endian (bytes_at (both mem.now marks.now) p Size.Half)) × (result.val < 2 ^ 16) }
{
    Tv {
        val: half(mem, p),
        mark: half(marks, p) != 0,
    }
}

// The low one, two and four bytes of a number, written, one after another as the definition puts them. `to_le_bytes` and a copy to the part
// was tried: the proof did not close, as the library says of the copy what the whole slice is, and not what each byte is set to.
fn put_byte(mem: &mut [u8], p: usize, x: u32)
    requires { p < length mem.old }
    ensures { mem.new ≡ set mem.old p (x % 2 ^ 8) }
{
    mem[p] = (x % 256) as u8;
}

fn put_half(mem: &mut [u8], p: usize, x: u32)
    requires { p + 2 ≤ length mem.old }
    ensures { mem.new ≡ set (set mem.old p (x % 2 ^ 8)) (p + 1) (x / 2 ^ 8 % 2 ^ 8) }
{
    put_byte(mem, p, x);
    put_byte(mem, p + 1, x / 256);
}

fn put_word(mem: &mut [u8], p: usize, x: u32)
    requires { p + 4 ≤ length mem.old }
    ensures { mem.new ≡ set (set (set (set mem.old p (x % 2 ^ 8)) (p + 1) (x / 2 ^ 8 % 2 ^ 8)) (p + 2) (x / 2 ^ 16 % 2 ^ 8)) (p + 3) (x / 2 ^ 24 % 2 ^ 8) }
{
    put_half(mem, p, x);
    put_half(mem, p + 2, x / 0x10000);
}

// A mark as it is written, in each byte of a word.
fn marks_of(mark: bool) -> u32
    ensures { result ≡ cond mark 0x01010101 0 }
{
    if mark { 0x01010101 } else { 0 }
}

// A store of one, two or four bytes, each with the value's mark.
#[tactic(auto, unfolding(machine::specs::Memory::put_bytes))]
pub fn store(size: Size, mem: &mut [u8], marks: &mut [u8], p: usize, v: Tv)
    requires { (p + width size ≤ length mem.old) × (length mem.old ≡ length marks.old) }
    ensures { both mem.new marks.new ≡ put_bytes size p v (both mem.old marks.old) }
{
    let m = marks_of(v.mark);
    match size {
        Size::Byte => {
            put_byte(mem, p, v.val);
            put_byte(marks, p, m);
        }
        Size::Half => {
            put_half(mem, p, v.val);
            put_half(marks, p, m);
        }
        Size::Word => {
            put_word(mem, p, v.val);
            put_word(marks, p, m);
        }
    }
}

// Bit n of the byte at p, with the byte's mark. n is below 8, here and below, as decoding has it; an instruction's field is wider, for the
// encoder has to refuse more.
pub fn bit_at(n: u32, mem: &[u8], marks: &[u8], p: usize) -> Tv
    requires { (n < 8) × (p < length mem.now) × (length mem.now ≡ length marks.now) }
    ensures { result ≡ lift1 (λ b. b / 2 ^ n % 2) (cell (both mem.now marks.now) p) }
{
    Tv {
        val: (byte(mem, p) >> n) % 2,
        mark: byte(marks, p) != 0,
    }
}

// Bit n of a byte alone.
fn bit(n: u32) -> u8
    requires { n < 8 }
    ensures { result ≡ 2 ^ n }
{
    1u8 << n
}

// What a bit instruction makes of a byte.
#[tactic(auto, unfolding(machine::specs::Memory::changed))]
fn changed(op: BitOp, n: u32, b: u8) -> u8
    requires { n < 8 }
    ensures { result ≡ changed op n b }
{
    match op {
        BitOp::Set1 => b | bit(n),
        BitOp::Not1 => b ^ bit(n),
        BitOp::Clr1 => b & !bit(n),
        BitOp::Tst1 => b,
    }
}

// The byte at p changed by a bit instruction; its mark stays.
pub fn change(op: BitOp, n: u32, mem: &mut [u8], p: usize)
    requires { (n < 8) × (p < length mem.old) }
    ensures { (k : List ℕ) → both mem.new k ≡ edit p (changed op n) (both mem.old k) }
{
    mem[p] = changed(op, n, mem[p]);
}

pub fn only_tests(op: BitOp) -> bool
    ensures { result ≡ tests op }
{
    matches!(op, BitOp::Tst1)
}
