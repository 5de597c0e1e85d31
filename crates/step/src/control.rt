// Jumps, branches, system registers, exceptions and returns. None of them touches memory.
ghost use Rattle.std.specs.Prelude.{◌≡◌, cond, Ok, Err, IfOk, ◌/◌, ◌%◌, ◌^◌, ◌<◌};
ghost use Rattle.machine.specs.declared.Answer.TheVariants.{Leak};
ghost use Rattle.machine.specs.Marked.{plain, Cells, lift1, put};
ghost use Rattle.machine.specs.Psw.{put_reg, condition, sys, bits, put_psw_flags};
ghost use Rattle.machine.specs.Step.{after, reveal, next, plus, modes, save_pc, save_psw, jmp, bcond, jarl, ldsr, system, exception, trap, illegal, return, reti, nmi_accepted, code_accepted, take_nmi, take_code};
ghost use Rattle.step.specs.Tasks.{open_of, Fits, next_of, went_of, pc_of, psw_of};

use crate::unmarked::{Next, Packed, leak, reveal};
use machine::{Open, Refusal, Tv};
use state::cells::Cells;
use state::psw;
use word::extend;

// The system registers' numbers, as LDSR's and STSR's field and the definition (`sys`) have them. Register n has cell 32 + n.
const EIPC: u32 = 0;

const EIPSW: u32 = 1;

const FEPC: u32 = 2;

const FEPSW: u32 = 3;

const ECR: u32 = 4;

fn sys(n: u32) -> u32
    requires { n < 6 }
    ensures { result ≡ sys n }
{
    32 + n
}

// The saved PC and PSW of exceptions and maskable requests, and those of NMIs.
#[derive(Clone, Copy)]
enum Bank {
    Ei,
    Fe,
}

impl Bank {
    fn pc(self) -> u32
        ensures { (result ≡ pc_of self) × (result < 6) }
    {
        match self {
            Bank::Ei => EIPC,
            Bank::Fe => FEPC,
        }
    }

    fn psw(self) -> u32
        ensures { (result ≡ psw_of self) × (result < 6) }
    {
        match self {
            Bank::Ei => EIPSW,
            Bank::Fe => FEPSW,
        }
    }
}

// JMP.
#[tactic(auto, unfolding(machine::specs::Step::jmp, machine::specs::Step::reveal))]
pub fn jmp(reg1: u32, o: Packed, cells: &Cells) -> Result<Next, Refusal>
    ensures { (m : Cells) → after (went_of o result) cells.now m ≡ jmp reg1 (open_of o) cells.now m }
{
    let a = reveal(cells.reg(reg1), o.pc())?;
    Ok(o.goto(a % 0x1000000 / 2 * 2))
}

// Bcond: the displacement counts from the instruction's own address. The mark is tested here and not by `reveal`: with that the steps of
// our images take up to 2.6 instructions more, and more than README.md says (docs/SPEED.md).
#[tactic(auto, unfolding(machine::specs::Step::bcond, machine::specs::Step::reveal))]
pub fn bcond(cond: u32, disp: u32, o: Packed, cells: &Cells) -> Result<Next, Refusal>
    ensures { (m : Cells) → after (went_of o result) cells.now m ≡ bcond cond disp (open_of o) cells.now m }
{
    let t = cells.condition(cond);
    if t.mark {
        return Err(leak(o.pc()));
    }
    if t.val == 0 {
        return Ok(o.plus(2));
    }
    Ok(o.plus(disp))
}

// JARL: the link is the next PC.
#[tactic(auto, unfolding(machine::specs::Step::jarl))]
pub fn jarl(disp: u32, reg2: u32, o: Packed, cells: &mut Cells) -> Next
    ensures { (m : Cells) → next (open_of (next_of o result)) cells.new m ≡ jarl disp reg2 (open_of o) cells.old m }
{
    cells.put_reg(reg2, Tv::plain(extend::sum24(o.pc(), 4)));
    o.plus(disp)
}

// SETF.
pub fn setf(cond: u32, reg2: u32, o: Packed, cells: &mut Cells) -> Next
    ensures { (m : Cells) → next (open_of (next_of o result)) cells.new m ≡ next (plus 4 (open_of o)) (put_reg reg2 (condition cond cells.old) cells.old) m }
{
    let t = cells.condition(cond);
    cells.put_reg(reg2, t);
    o.plus(4)
}

// LDSR to PSW: its bits choose whether requests are accepted, so a marked value is refused. One that leaves NP, EP and ID as they are is
// calm.
#[tactic(auto, unfolding(machine::specs::Step::reveal))]
fn load_psw(v: Tv, o: Packed, cells: &mut Cells) -> Result<Next, Refusal>
    ensures { (m : Cells) → after (went_of o result) cells.new m ≡ reveal (open_of o) cells.old m v (λ w. next (plus 4 (modes (w / 2 ^ 7 % 2) (w / 2 ^ 6 % 2) (w / 2 ^ 5 % 2) (open_of o))) (put_psw_flags (bits w 0) cells.old) m) }
{
    let w = reveal(v, o.pc())?;
    cells.put_flags(w, 0);
    if o.mode_bits() == w / psw::ID % 8 {
        return Ok(o.plus(4));
    }
    let n = o
        .unpack()
        .modes(w / psw::NP % 2, w / psw::EP % 2, w / psw::ID % 2);
    Ok(Next::to(n.plus(4)))
}

// LDSR to the saved PC of a bank.
fn load_pc(bank: Bank, v: Tv, cells: &mut Cells)
    ensures { cells.new ≡ put (sys (pc_of bank)) (lift1 (λ w. w % 2 ^ 24) v) cells.old }
{
    cells.put(
        sys(bank.pc()),
        Tv {
            val: v.val % 0x1000000,
            mark: v.mark,
        },
    );
}

#[tactic(auto, unfolding(machine::specs::Step::ldsr))]
pub fn ldsr(reg2: u32, regid: u32, o: Packed, cells: &mut Cells) -> Result<Next, Refusal>
    ensures { (m : Cells) → after (went_of o result) cells.new m ≡ ldsr reg2 regid (open_of o) cells.old m }
{
    let v = cells.reg(reg2);
    match regid {
        EIPC => load_pc(Bank::Ei, v, cells),
        EIPSW => cells.put_spread(sys(EIPSW), v),
        FEPC => load_pc(Bank::Fe, v, cells),
        FEPSW => cells.put_spread(sys(FEPSW), v),
        _ => return load_psw(v, o, cells),
    }
    Ok(o.plus(4))
}

// The system register regid as a value.
#[tactic(auto, unfolding(machine::specs::Step::system))]
fn system_value(regid: u32, o: Open, cells: &Cells) -> Tv
    ensures { result ≡ system regid o cells.now }
{
    match regid {
        EIPC => cells.get(sys(EIPC)),
        EIPSW => cells.gathered(sys(EIPSW)),
        FEPC => cells.get(sys(FEPC)),
        FEPSW => cells.gathered(sys(FEPSW)),
        ECR => Tv::plain(o.ecr),
        _ => cells.gathered_psw(o),
    }
}

pub fn stsr(regid: u32, reg2: u32, o: Packed, cells: &mut Cells) -> Next
    ensures { (m : Cells) → next (open_of (next_of o result)) cells.new m ≡ next (plus 4 (open_of o)) (put_reg reg2 (system regid (open_of o) cells.old) cells.old) m }
{
    let v = system_value(regid, o.unpack(), &*cells);
    cells.put_reg(reg2, v);
    o.plus(4)
}

// A PC and PSW to the saved registers of a bank.
fn save(value: u32, bank: Bank, o: Open, cells: &mut Cells)
    ensures { cells.new ≡ save_pc (pc_of bank) value (save_psw (psw_of bank) o cells.old) }
{
    cells.save_psw(sys(bank.psw()), o);
    cells.put(sys(bank.pc()), Tv::plain(value));
}

#[tactic(auto, unfolding(machine::specs::Step::exception))]
fn exception(code: u32, target: u32, np: u32, o: Open, cells: &mut Cells) -> Open
    requires { code < 2 ^ 16 }
    ensures goes { (m : Cells) → next result cells.new m ≡ exception code target np o cells.old m }
    ensures fits { np < 2 → Fits o → Fits result }
{
    save(extend::sum24(o.pc, 4), Bank::Ei, o, cells);
    o.modes(np, 1, 1).eicc(code).goto(target)
}

#[tactic(auto, unfolding(machine::specs::Step::trap))]
pub fn trap(vector: u32, o: Open, cells: &mut Cells) -> Open
    requires { vector < 32 }
    ensures goes { (m : Cells) → next result cells.new m ≡ trap vector o cells.old m }
    ensures fits { Fits o → Fits result }
{
    let target = if vector < 0x10 { 0x40 } else { 0x50 };
    exception(0x40 + vector, target, o.np, o, cells)
}

#[tactic(auto, unfolding(machine::specs::Step::illegal))]
pub fn illegal(o: Open, cells: &mut Cells) -> Open
    ensures goes { (m : Cells) → next result cells.new m ≡ illegal o cells.old m }
    ensures fits { Fits o → Fits result }
{
    exception(0x60, 0x60, o.np, o, cells)
}

// Back to the saved PC and PSW of a bank.
fn return_to(bank: Bank, o: Open, cells: &mut Cells) -> Result<Open, Refusal>
    ensures goes { (m : Cells) → after result cells.new m ≡ return (pc_of bank) (psw_of bank) o cells.old m }
    ensures fits { Fits o → IfOk result Fits }
{
    let a = reveal(cells.get(sys(bank.pc())), o.pc)?;
    let b = reveal(cells.mode(sys(bank.psw())), o.pc)?;
    cells.restore_flags(sys(bank.psw()));
    Ok(o.modes(b / 4 % 2, b / 2 % 2, b % 2).goto(a / 2 * 2))
}

#[tactic(auto, unfolding(machine::specs::Step::reti))]
pub fn reti(o: Open, cells: &mut Cells) -> Result<Open, Refusal>
    ensures goes { (m : Cells) → after result cells.new m ≡ reti o cells.old m }
    ensures fits { Fits o → IfOk result Fits }
{
    if o.ep == 0 {
        if o.np == 1 {
            return return_to(Bank::Fe, o, cells);
        }
    }
    return_to(Bank::Ei, o, cells)
}

#[tactic(auto, unfolding(machine::specs::Step::nmi_accepted))]
pub fn nmi_accepted(o: Open) -> bool
    ensures { result ≡ nmi_accepted o }
{
    (o.nmi == 1) & (o.np == 0)
}

#[tactic(auto, unfolding(machine::specs::Step::code_accepted))]
pub fn code_accepted(o: Open) -> bool
    ensures { result ≡ code_accepted o }
{
    (o.code != 0) & ((o.np == 0) & (o.id == 0))
}

// An NMI is accepted: it is cleared, and HALT ends.
#[tactic(auto, unfolding(machine::specs::Step::take_nmi))]
pub fn take_nmi(o: Open, cells: &mut Cells) -> Open
    ensures goes { (m : Cells) → next result cells.new m ≡ take_nmi o cells.old m }
    ensures fits { Fits o → Fits result }
{
    save(o.pc, Bank::Fe, o, cells);
    o.waits(o.code, 0, 0).modes(1, 0, 1).fecc(0x10).goto(0x10)
}

// A maskable code is accepted: it is cleared, and HALT ends.
#[tactic(auto, unfolding(machine::specs::Step::take_code))]
pub fn take_code(o: Open, cells: &mut Cells) -> Open
    requires { o.code < 2 ^ 16 }
    ensures goes { (m : Cells) → next result cells.new m ≡ take_code o cells.old m }
    ensures fits { Fits o → Fits result }
{
    save(o.pc, Bank::Ei, o, cells);
    o.waits(0, o.nmi, 0)
        .modes(o.np, 0, 1)
        .eicc(o.code)
        .goto(o.code)
}
