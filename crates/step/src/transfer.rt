// Loads, stores and bit instructions.
ghost use Rattle.std.specs.Prelude.{◌≡◌, Err, ℕ, ◌<◌};
ghost use Rattle.machine.specs.Marked.{both};
ghost use Rattle.machine.specs.Memory.{address};
ghost use Rattle.machine.specs.Step.{after, plus, load, store, bitwise};
ghost use Rattle.step.specs.Tasks.{open_of, went_on, Ready};

use crate::unmarked::{Packed, reveal};
use insn::{BitOp, Size};
use machine::{Answer, Refusal};
use state::cells::Cells;
use state::map::{Map, Right};
use state::memory;
use word::extend;

// An operand's address, by its low 24 bits and with its low bits cleared.
fn address(size: Size, base: u32, disp: u32) -> u32
    ensures { result ≡ address size base disp }
{
    memory::aligned(size, extend::sum24(base, disp))
}

fn refused(answer: Answer, place: u32) -> Result<(), Refusal>
    ensures { result ≡ Err (record { answer = answer; place = place }) }
{
    Err(Refusal { answer, place })
}

#[tactic(auto, unfolding(machine::specs::Step::load, machine::specs::Step::reveal, machine::specs::Step::place))]
fn load_of(
    size: Size,
    disp: u32,
    base: u32,
    target: u32,
    map: &Map,
    o: Packed,
    cells: &mut Cells,
    mem: &[u8],
    marks: &[u8],
) -> Result<(), Refusal>
    requires { Ready map.now mem.now marks.now }
    ensures { (len : ℕ) → after (went_on result (plus len (open_of o))) cells.new (both mem.now marks.now) ≡ load size disp base target len map.now (open_of o) cells.old (both mem.now marks.now) }
{
    let b = reveal(cells.reg(base), o.pc())?;
    let a = address(size, b, disp);
    let Some(p) = map.find(Right::Read, a) else {
        return refused(Answer::NoRead, a);
    };
    cells.put_reg(target, memory::load(size, mem, marks, p));
    Ok(())
}

// Each size by itself, here and in `store`: the compiler writes the body out three times, with no test of the size in it.
pub fn load(
    size: Size,
    disp: u32,
    base: u32,
    target: u32,
    map: &Map,
    o: Packed,
    cells: &mut Cells,
    mem: &[u8],
    marks: &[u8],
) -> Result<(), Refusal>
    requires { Ready map.now mem.now marks.now }
    ensures { (len : ℕ) → after (went_on result (plus len (open_of o))) cells.new (both mem.now marks.now) ≡ load size disp base target len map.now (open_of o) cells.old (both mem.now marks.now) }
{
    match size {
        Size::Byte => load_of(Size::Byte, disp, base, target, map, o, cells, mem, marks),
        Size::Half => load_of(Size::Half, disp, base, target, map, o, cells, mem, marks),
        Size::Word => load_of(Size::Word, disp, base, target, map, o, cells, mem, marks),
    }
}

#[tactic(auto, unfolding(machine::specs::Step::store, machine::specs::Step::reveal, machine::specs::Step::place))]
fn store_of(
    size: Size,
    disp: u32,
    base: u32,
    source: u32,
    map: &Map,
    o: Packed,
    cells: &Cells,
    mem: &mut [u8],
    marks: &mut [u8],
) -> Result<(), Refusal>
    requires { Ready map.now mem.old marks.old }
    ensures { (len : ℕ) → after (went_on result (plus len (open_of o))) cells.now (both mem.new marks.new) ≡ store size disp base source len map.now (open_of o) cells.now (both mem.old marks.old) }
{
    let b = reveal(cells.reg(base), o.pc())?;
    let a = address(size, b, disp);
    let Some(p) = map.find(Right::Write, a) else {
        return refused(Answer::NoWrite, a);
    };
    memory::store(size, mem, marks, p, cells.reg(source));
    Ok(())
}

pub fn store(
    size: Size,
    disp: u32,
    base: u32,
    source: u32,
    map: &Map,
    o: Packed,
    cells: &Cells,
    mem: &mut [u8],
    marks: &mut [u8],
) -> Result<(), Refusal>
    requires { Ready map.now mem.old marks.old }
    ensures { (len : ℕ) → after (went_on result (plus len (open_of o))) cells.now (both mem.new marks.new) ≡ store size disp base source len map.now (open_of o) cells.now (both mem.old marks.old) }
{
    match size {
        Size::Byte => store_of(Size::Byte, disp, base, source, map, o, cells, mem, marks),
        Size::Half => store_of(Size::Half, disp, base, source, map, o, cells, mem, marks),
        Size::Word => store_of(Size::Word, disp, base, source, map, o, cells, mem, marks),
    }
}

// TST1 needs no right to write.
#[tactic(auto, unfolding(machine::specs::Step::bitwise, machine::specs::Step::reveal, machine::specs::Step::place))]
pub fn bitwise(
    op: BitOp,
    bit: u32,
    disp: u32,
    base: u32,
    map: &Map,
    o: Packed,
    cells: &mut Cells,
    mem: &mut [u8],
    marks: &[u8],
) -> Result<(), Refusal>
    requires { Ready map.now mem.old marks.now × (bit < 8) }
    ensures { after (went_on result (plus 4 (open_of o))) cells.new (both mem.new marks.now) ≡ bitwise op bit disp base map.now (open_of o) cells.old (both mem.old marks.now) }
{
    let b = reveal(cells.reg(base), o.pc())?;
    let a = address(Size::Byte, b, disp);
    let Some(p) = map.find(Right::Read, a) else {
        return refused(Answer::NoRead, a);
    };
    let t = memory::bit_at(bit, &*mem, marks, p);
    if memory::only_tests(op) {
        cells.set_z(t.val == 0, t.mark);
        return Ok(());
    }
    if map.find(Right::Write, a).is_none() {
        return refused(Answer::NoWrite, a);
    }
    cells.set_z(t.val == 0, t.mark);
    memory::change(op, bit, mem, p);
    Ok(())
}
