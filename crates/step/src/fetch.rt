// The halfwords of the instruction at PC. They choose what is done, so they must not be marked.
ghost use Rattle.std.specs.Prelude.{◌≡◌, true, cond, Ok, Err, IfOk, ℕ, ◌+◌, ◌%◌, ◌^◌, ◌<◌, ◌≤◌, length};
ghost use Rattle.word.specs.Extend.{sum24};
ghost use Rattle.insn.specs.declared.Size.TheVariants.{Half};
ghost use Rattle.machine.specs.declared.Answer.TheVariants.{Leak};
ghost use Rattle.machine.specs.Marked.{Cells, both, lift_all};
ghost use Rattle.machine.specs.Memory.{bytes_at, little_endian};
ghost use Rattle.machine.specs.Regions.{FETCH};
ghost use Rattle.machine.specs.Step.{Outcome, fetch};
ghost use Rattle.state.specs.Windows.{Onward};
ghost use Rattle.step.specs.Tasks.{fetched, halfword_of, Ready};

use crate::unmarked::reveal;
use machine::{Answer, Open, Refusal};
use state::map::{Map, Place, Right};
use state::memory;
use word::extend;

// The halfword at p.
fn halfword(pc: u32, p: usize, mem: &[u8], marks: &[u8]) -> Result<u32, Refusal>
    requires { (p + 2 ≤ length mem.now) × (length mem.now ≡ length marks.now) }
    ensures value { result ≡ cond (lift_all little_endian (bytes_at (both mem.now marks.now) p Half)).mark (Err (record { answer = Leak; place = pc })) (Ok (lift_all little_endian (bytes_at (both mem.now marks.now) p Half)).val) }
    ensures small { IfOk result (λ h. h < 2 ^ 16) }
{
    reveal(memory::fetch(mem, marks, p), pc)
}

// The first halfword, and where it lies. That PC is even, which each clause here and in `exec` asks, is a theorem of the definition
// (`step_well_formed`); in a type each jump would prove it again.
pub fn first(map: &Map, pc: u32, mem: &[u8], marks: &[u8]) -> Result<(u32, Place), Refusal>
    requires { Ready map.now mem.now marks.now × (pc % 2 ≡ 0) }
    ensures value { (o : Open) (c : Cells) (k : ℕ → Outcome) → o.pc ≡ pc → fetched (halfword_of result) c (both mem.now marks.now) k ≡ fetch pc map.now o c (both mem.now marks.now) k }
    ensures found { IfOk result (λ h. (h.0 < 2 ^ 16) × Onward map.now FETCH pc h.1) }
{
    let Some(p) = map.locate(Right::Fetch, pc) else {
        return Err(Refusal {
            answer: Answer::NoFetch,
            place: pc,
        });
    };
    let h = halfword(pc, p.at, mem, marks)?;
    Ok((h, p))
}

// The second one, behind a first one that lies at p.
pub fn second(map: &Map, pc: u32, p: Place, mem: &[u8], marks: &[u8]) -> Result<u32, Refusal>
    requires { Ready map.now mem.now marks.now × (pc % 2 ≡ 0) × Onward map.now FETCH pc p }
    ensures value { (o : Open) (c : Cells) (k : ℕ → Outcome) → o.pc ≡ pc → fetched result c (both mem.now marks.now) k ≡ fetch (sum24 pc 2) map.now o c (both mem.now marks.now) k }
    ensures small { IfOk result (λ h. h < 2 ^ 16) }
{
    let Some(q) = map.second(p, pc) else {
        return Err(Refusal {
            answer: Answer::NoFetch,
            place: extend::sum24(pc, 2),
        });
    };
    halfword(pc, q, mem, marks)
}
