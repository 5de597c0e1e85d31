// What a host calls. Each entry tests its own arguments, and needs nothing of its caller.
ghost use Rattle.std.specs.Prelude.{◌≡◌, false, MatchOption};
ghost use Rattle.machine.specs.Run.{number};
ghost use Rattle.v850.specs.CallLaws.{checked};
ghost use Rattle.v850.specs.Entry.{good_sizes, called, reset, handed, view};
ghost use Rattle.v850.specs.Handed.{view_from, IsPart, on_by};

use crate::block::{self, BYTES, REPORT, Words};
use machine::Answer;
pub use machine::numbers::{
    ASLEEP, DONE, LEAK, MAP, NO_FETCH, NO_READ, NO_WRITE, SIZE, STATE, UNDEFINED,
};
use state::map::Map;
use step::run;

// The largest memory.
const MEMORY: usize = 65536;

// SIZE: which sizes are right.
fn good_sizes(block: &[u8], memory: &[u8], marks: &[u8], report: &[u8]) -> bool
    ensures { result ≡ good_sizes block.now memory.now marks.now report.now }
{
    block.len() == BYTES
        && report.len() == REPORT
        && memory.len() <= MEMORY
        && marks.len() == memory.len()
}

// SIZE, MAP and STATE, in this order: the words of a block that passes them all, or the refusal.
#[tactic(auto, unfolding(crate::specs::CallLaws::checked))]
fn checked(block: &[u8], memory: &[u8], marks: &[u8], report: &[u8]) -> Result<(Words, Map), Answer>
    ensures { result ≡ checked block.now memory.now marks.now report.now }
{
    if !good_sizes(block, memory, marks, report) {
        return Err(Answer::Size);
    }
    let words = Words::read(block);
    let map = Map::new(words.map(), memory.len()).ok_or(Answer::Map)?;
    if !words.good_state() {
        return Err(Answer::State);
    }
    Ok((words, map))
}

// The run: the checks, then steps until the budget is used up or one is refused. The block is taken apart once and put together once,
// and nothing here walks the memory or the marks.
pub fn v850_run(
    block: &mut [u8],
    memory: &mut [u8],
    marks: &mut [u8],
    report: &mut [u8],
    budget: u32,
) -> u32
    ensures { record { answer = result; block = block.new; memory = memory.new; marks = marks.new; report = report.new } ≡ called block.old memory.old marks.old report.old budget }
{
    match checked(block, memory, marks, report) {
        Ok((words, map)) => {
            let mut cells = words.cells();
            let e = run::run(budget, &map, words.core(), &mut cells, memory, marks);
            let left = Words::of(e.core, &cells, &map);
            left.write(block);
            block::put_report(report, e.steps, e.place);
            u32::from(e.answer)
        }
        Err(Answer::Size) => SIZE,
        Err(refusal) => {
            report.fill(0);
            u32::from(refusal)
        }
    }
}

// Reset: the map stays.
pub fn v850_reset(block: &mut [u8]) -> u32
    ensures { record { answer = result; block = block.new } ≡ reset block.old }
{
    if block.len() != BYTES {
        return SIZE;
    }
    let map = Words::read(block).map();
    Words::reset(&map).write(block);
    DONE
}

// Where region k begins and ends in the memory, if it is handed out.
fn part(block: &[u8], memory: &[u8], k: u32) -> Option<(usize, usize)>
    ensures { MatchOption result (handed block.now memory.now k ≡ false) (IsPart block.now memory.now k) }
{
    if k > 3 || block.len() != BYTES || memory.len() > MEMORY {
        return None;
    }
    let map = Map::new(Words::read(block).map(), memory.len())?;
    let j = k as usize;
    let from = map.offset(j) as usize;
    Some((from, from + map.size(j) as usize))
}

// Region k: that very part of the memory, or an empty one. A slice and no Option, as it cannot fail: `view`, `NoPart`.
pub fn region<'a>(block: &[u8], memory: &'a mut [u8], k: u32) -> &'a mut [u8]
    ensures { (result.now ≡ view block.now memory.old k) × (result.ref_ptr ≡ on_by (view_from block.now memory.old k) memory.entry.ref_ptr) }
{
    let (from, to) = part(block, memory, k).unwrap_or((0, 0));
    &mut memory[from..to]
}
