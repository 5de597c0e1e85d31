// From instructions to tasks: the formats' operands are fetched, and what several instructions share is one task.
ghost use Rattle.std.specs.Prelude.{◌≡◌, ℕ, true, List};
ghost use Rattle.insn.specs.Coding.{in_range};
ghost use Rattle.machine.specs.Marked.{plain, Cells};
ghost use Rattle.machine.specs.Step.{exec};
ghost use Rattle.step.specs.Tasks.{do_task, TaskFields};

use insn::{BitOp, Insn, Size};
use machine::{Op, Open, Tv};
use state::cells::Cells;

// What an instruction asks for, its operands at hand: instructions of several formats share a task. It is data, and no closure: one match
// carries it out, with no call by a pointer.
#[derive(Clone, Copy)]
pub enum Task {
    Compute {
        op: Op,
        x: Tv,
        y: Tv,
        target: u32,
        len: u32,
    },
    Load {
        size: Size,
        disp: u32,
        base: u32,
        target: u32,
        len: u32,
    },
    Store {
        size: Size,
        disp: u32,
        base: u32,
        source: u32,
        len: u32,
    },
    Bitwise {
        op: BitOp,
        bit: u32,
        disp: u32,
        base: u32,
    },
    Jmp {
        reg1: u32,
    },
    Bcond {
        cond: u32,
        disp: u32,
    },
    Jarl {
        disp: u32,
        reg2: u32,
    },
    Setf {
        cond: u32,
        reg2: u32,
    },
    Ldsr {
        reg2: u32,
        regid: u32,
    },
    Stsr {
        regid: u32,
        reg2: u32,
    },
    System(System),
}

// The instructions that change more than PC of what is never marked. LDSR does so only to PSW, and is a task of its own.
#[derive(Clone, Copy)]
pub enum System {
    Trap { vector: u32 },
    Halt,
    Reti,
    Di,
    Ei,
}

// The element pointer, r30.
const ELEMENT: u32 = 30;

#[tactic(auto, unfolding(machine::specs::Step::exec, crate::specs::Tasks::do_task, crate::specs::Tasks::do_system))]
pub fn task_of(i: Insn, cells: &Cells) -> Task
    requires { in_range i ≡ true }
    ensures { TaskFields result × ((map : List ℕ) (o : Open) (m : Cells) → do_task result map o cells.now m ≡ exec i map o cells.now m) }
{
    match i {
        Insn::Reg { op, reg1, reg2 } => Task::Compute {
            op: Op::from(op),
            x: cells.reg(reg1),
            y: cells.reg(reg2),
            target: reg2,
            len: 2,
        },
        Insn::Jmp { reg1 } => Task::Jmp { reg1 },
        Insn::Imm5 { op, imm, reg2 } => Task::Compute {
            op: Op::from(op),
            x: Tv::plain(imm),
            y: cells.reg(reg2),
            target: reg2,
            len: 2,
        },
        Insn::Sld { size, disp, reg2 } => Task::Load {
            size,
            disp,
            base: ELEMENT,
            target: reg2,
            len: 2,
        },
        Insn::Sst { size, disp, reg2 } => Task::Store {
            size,
            disp,
            base: ELEMENT,
            source: reg2,
            len: 2,
        },
        Insn::Bcond { cond, disp } => Task::Bcond { cond, disp },
        Insn::Imm16 {
            op,
            imm,
            reg1,
            reg2,
        } => Task::Compute {
            op: Op::from(op),
            x: Tv::plain(imm),
            y: cells.reg(reg1),
            target: reg2,
            len: 4,
        },
        Insn::Ld {
            size,
            disp,
            reg1,
            reg2,
        } => Task::Load {
            size,
            disp,
            base: reg1,
            target: reg2,
            len: 4,
        },
        Insn::St {
            size,
            disp,
            reg1,
            reg2,
        } => Task::Store {
            size,
            disp,
            base: reg1,
            source: reg2,
            len: 4,
        },
        Insn::Jarl { disp, reg2 } => Task::Jarl { disp, reg2 },
        Insn::Bit {
            op,
            bit,
            disp,
            reg1,
        } => Task::Bitwise {
            op,
            bit,
            disp,
            base: reg1,
        },
        Insn::Setf { cond, reg2 } => Task::Setf { cond, reg2 },
        Insn::Ldsr { reg2, regid } => Task::Ldsr { reg2, regid },
        Insn::Stsr { regid, reg2 } => Task::Stsr { regid, reg2 },
        Insn::Shift { op, reg1, reg2 } => Task::Compute {
            op: Op::from(op),
            x: cells.reg(reg1),
            y: cells.reg(reg2),
            target: reg2,
            len: 4,
        },
        Insn::Trap { vector } => Task::System(System::Trap { vector }),
        Insn::Halt => Task::System(System::Halt),
        Insn::Reti => Task::System(System::Reti),
        Insn::Di => Task::System(System::Di),
        Insn::Ei => Task::System(System::Ei),
    }
}
