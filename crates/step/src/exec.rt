// One step: what comes before the next instruction; or fetch, decode, and the instruction's task.
ghost use Rattle.std.specs.Prelude.{◌≡◌, IfOk, ℕ, ◌%◌, ◌^◌, ◌<◌, ◌≤◌, true, List};
ghost use Rattle.insn.specs.Coding.{reg2_of, opcode_of, reg1_of, decode};
ghost use Rattle.machine.specs.Marked.{Cells, both};
ghost use Rattle.machine.specs.Step.{after, execute, instruction, step};
ghost use Rattle.step.specs.Tasks.{open_of, Fits, went_of, acts, do_system, do_task, SystemFields, TaskFields, DecodedFields, Ready};

use crate::tasks::{System, Task};
use crate::unmarked::{Next, Packed};
use crate::{control, fetch, tasks, transfer};
use insn::{Decoded, decode};
use machine::{Answer, Open, Refusal};
use state::cells::Cells;
use state::map::Map;

#[tactic(auto, unfolding(crate::specs::Tasks::do_system))]
fn system(s: System, o: Open, cells: &mut Cells) -> Result<Open, Refusal>
    requires { SystemFields s }
    ensures goes { (m : Cells) → after result cells.new m ≡ do_system s o cells.old m }
    ensures fits { Fits o → IfOk result Fits }
{
    match s {
        System::Trap { vector } => Ok(control::trap(vector, o, cells)),
        System::Halt => Ok(o.waits(o.code, o.nmi, 1).plus(4)),
        System::Reti => control::reti(o, cells),
        System::Di => Ok(o.modes(o.np, o.ep, 1).plus(4)),
        System::Ei => Ok(o.modes(o.np, o.ep, 0).plus(4)),
    }
}

// A task, carried out. Map, cells and memory go one by one here and below: the map is only read, and memory and marks are the two slices
// that the host lends (C interface; `state`, memory).
#[tactic(auto, unfolding(crate::specs::Tasks::do_task))]
fn perform(
    t: Task,
    map: &Map,
    o: Packed,
    cells: &mut Cells,
    mem: &mut [u8],
    marks: &mut [u8],
) -> Result<Next, Refusal>
    requires { Ready map.now mem.old marks.old × TaskFields t }
    ensures { after (went_of o result) cells.new (both mem.new marks.new) ≡ do_task t map.now (open_of o) cells.old (both mem.old marks.old) }
{
    match t {
        Task::Compute {
            op,
            x,
            y,
            target,
            len,
        } => {
            cells.operate(op, x, y, target);
            Ok(o.plus(len))
        }
        Task::Load {
            size,
            disp,
            base,
            target,
            len,
        } => {
            transfer::load(size, disp, base, target, map, o, cells, &*mem, &*marks)?;
            Ok(o.plus(len))
        }
        Task::Store {
            size,
            disp,
            base,
            source,
            len,
        } => {
            transfer::store(size, disp, base, source, map, o, &*cells, mem, marks)?;
            Ok(o.plus(len))
        }
        Task::Bitwise {
            op,
            bit,
            disp,
            base,
        } => {
            transfer::bitwise(op, bit, disp, base, map, o, cells, mem, &*marks)?;
            Ok(o.plus(4))
        }
        Task::Jmp { reg1 } => control::jmp(reg1, o, &*cells),
        Task::Bcond { cond, disp } => control::bcond(cond, disp, o, &*cells),
        Task::Jarl { disp, reg2 } => Ok(control::jarl(disp, reg2, o, cells)),
        Task::Setf { cond, reg2 } => Ok(control::setf(cond, reg2, o, cells)),
        Task::Ldsr { reg2, regid } => control::ldsr(reg2, regid, o, cells),
        Task::Stsr { regid, reg2 } => Ok(control::stsr(regid, reg2, o, cells)),
        Task::System(s) => {
            let n = system(s, o.unpack(), cells)?;
            Ok(Next::to(n))
        }
    }
}

// What decoding gave, carried out.
#[tactic(auto, unfolding(machine::specs::Step::execute))]
fn execute(
    d: Decoded,
    map: &Map,
    o: Packed,
    cells: &mut Cells,
    mem: &mut [u8],
    marks: &mut [u8],
) -> Result<Next, Refusal>
    requires { Ready map.now mem.old marks.old × DecodedFields d }
    ensures { after (went_of o result) cells.new (both mem.new marks.new) ≡ execute d map.now (open_of o) cells.old (both mem.old marks.old) }
{
    match d {
        Decoded::Valid(i) => {
            let t = tasks::task_of(i, &*cells);
            perform(t, map, o, cells, mem, marks)
        }
        Decoded::Illegal => {
            let n = control::illegal(o.unpack(), cells);
            Ok(Next::to(n))
        }
        Decoded::Undefined => Err(Refusal {
            answer: Answer::Undefined,
            place: o.pc(),
        }),
    }
}

// 011000-101111: four bits say the form, but for SLD.W and SST.W, which share them, and the opcode's two others are the operand's. Each arm
// calls with the four opcodes that begin alike, so that the compiler keeps of `short` what they ask for.
fn four_bits(h: u32, reg2: u32, opcode: u32, reg1: u32) -> Decoded
    requires { (h < 2 ^ 16) × (reg2 ≡ reg2_of h) × (opcode ≡ opcode_of h) × (reg1 ≡ reg1_of h) × (0b011000 ≤ opcode) × (opcode ≤ 0b101111) }
    ensures { (w : ℕ) → result ≡ decode h w }
{
    let low = opcode % 4;
    match opcode / 4 {
        0b0110 => decode::short(h, reg2, 0b011000 + low, reg1),
        0b0111 => decode::short(h, reg2, 0b011100 + low, reg1),
        0b1000 => decode::short(h, reg2, 0b100000 + low, reg1),
        0b1001 => decode::short(h, reg2, 0b100100 + low, reg1),
        0b1010 => decode::short(h, reg2, 0b101000 + low, reg1),
        _ => decode::short(h, reg2, 0b101100 + low, reg1),
    }
}

// The instruction at PC.
pub fn instruction(
    map: &Map,
    o: Packed,
    cells: &mut Cells,
    mem: &mut [u8],
    marks: &mut [u8],
) -> Result<Next, Refusal>
    requires { Ready map.now mem.old marks.old × ((open_of o).pc % 2 ≡ 0) }
    ensures { after (went_of o result) cells.new (both mem.new marks.new) ≡ instruction map.now (open_of o) cells.old (both mem.old marks.old) }
{
    let pc = o.pc();
    let (first, p) = fetch::first(map, pc, &*mem, &*marks)?;
    let reg2 = decode::reg2_of(first);
    let opcode = decode::opcode_of(first);
    let reg1 = decode::reg1_of(first);
    let d = match opcode {
        0b000000..=0b010111 => decode::operation(reg2, opcode, reg1),
        0b011000..=0b101111 => four_bits(first, reg2, opcode, reg1),
        _ => {
            let second = fetch::second(map, pc, p, &*mem, &*marks)?;
            decode::long(reg2, opcode, reg1, second)
        }
    };
    execute(d, map, o, cells, mem, marks)
}

// Something comes before the next instruction: an NMI or a maskable code is accepted, or HALT's state goes on.
pub fn acts(o: Packed) -> bool
    ensures { result ≡ acts (open_of o) }
{
    let w = o.unpack();
    control::nmi_accepted(w) | (control::code_accepted(w) | (w.halted == 1))
}

// The step of what comes before the next instruction.
#[tactic(auto, unfolding(machine::specs::Step::step))]
pub fn attend(o: Packed, cells: &mut Cells) -> Result<Next, Refusal>
    requires { acts (open_of o) ≡ true }
    ensures { (map : List ℕ) (m : Cells) → after (went_of o result) cells.new m ≡ step map (open_of o) cells.old m }
{
    let w = o.unpack();
    if control::nmi_accepted(w) {
        let n = control::take_nmi(w, cells);
        return Ok(Next::to(n));
    }
    if control::code_accepted(w) {
        let n = control::take_code(w, cells);
        return Ok(Next::to(n));
    }
    Err(Refusal {
        answer: Answer::Asleep,
        place: 0,
    })
}
