// The machine: its state, one step of it, and a run.
#![tactic(auto)]

pub mod numbers;
mod operations;
mod unmarked;
mod values;

// A value with its mark. No Option: a marked value is computed with like any other (`lift1`, `lift2`).
#[derive(Clone, Copy)]
pub struct Tv {
    pub val: u32,
    pub mark: bool,
}

// What is never marked: PC, the bits NP, EP and ID of PSW, ECR, and the requests (a maskable code or 0, and an NMI) with HALT's state.
// They are numbers and no flags or options, as the definitions compute with them (`psw`, `modes`) and the block has them so (`core_in`).
#[derive(Clone, Copy)]
pub struct Open {
    pub pc: u32,
    pub np: u32,
    pub ep: u32,
    pub id: u32,
    pub ecr: u32,
    pub code: u32,
    pub nmi: u32,
    pub halted: u32,
}

// What comes back.
#[derive(Clone, Copy)]
pub enum Answer {
    Done,
    Size,
    Map,
    State,
    Asleep,
    NoFetch,
    Undefined,
    Leak,
    NoRead,
    NoWrite,
}

// Why a step is refused, and the place. A refused step changes nothing. No enum of refusals alone: the order's numbers are one list, with
// DONE in it (`number`).
#[derive(Clone, Copy)]
pub struct Refusal {
    pub answer: Answer,
    pub place: u32,
}

// The operations on words that instructions share.
#[derive(Clone, Copy)]
pub enum Op {
    Mov,
    Not,
    Divh,
    Satsubr,
    Satsub,
    Satadd,
    Mulh,
    Or,
    Xor,
    And,
    Tst,
    Subr,
    Sub,
    Add,
    Cmp,
    Shr,
    Sar,
    Shl,
    Movea,
    Movhi,
    Andi,
}

// Which flags an operation sets, by families.
#[derive(Clone, Copy)]
pub enum Kind {
    Quiet,
    Logic,
    Mask,
    Shift,
    Divide,
    Arith,
    Saturate,
}

// How a run ended: the answer and its place, the steps taken, and what is never marked as the last step left it. No Result: each end has
// all four, DONE's too, and the definition (`ended`) has them so.
#[derive(Clone, Copy)]
pub struct Ran {
    pub answer: Answer,
    pub place: u32,
    pub steps: u32,
    pub core: Open,
}
