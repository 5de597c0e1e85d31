// A run: steps until the budget is used up or a step is refused.
ghost use Rattle.std.specs.Prelude.{◌≡◌, IfNone, ◌-◌, ◌<◌, ◌≤◌, true, false};
ghost use Rattle.machine.specs.Marked.{both};
ghost use Rattle.machine.specs.Run.{run};
ghost use Rattle.machine.specs.WellFormed.{WellFormed, Bytes};
ghost use Rattle.step.specs.Tasks.{open_of, acts, goes_from, ran_to, Ready};

use crate::exec;
use crate::unmarked::Packed;
use machine::{Answer, Open, Ran, Refusal};
use state::cells::Cells;
use state::map::Map;

// How far a run has come after so many steps, and the refusal that ends it there, if there is one.
#[derive(Clone, Copy)]
pub struct Reached {
    pub stop: Option<Refusal>,
    pub steps: u32,
    pub core: Packed,
}

// The end of a run that has come this far and goes no further.
fn ended(r: Reached) -> Ran
    ensures { result ≡ ran_to r }
{
    let (answer, place) = match r.stop {
        Some(s) => (s.answer, s.place),
        None => (Answer::Done, 0),
    };
    Ran {
        answer,
        place,
        steps: r.steps,
        core: r.core.unpack(),
    }
}

// Instructions one after the other, from step `from` on. After a calm one nothing can have come up, so that none asks before the next;
// after another it asks, and leaves where something does come before the next instruction.
fn instructions(
    budget: u32,
    from: u32,
    map: &Map,
    start: Packed,
    cells: &mut Cells,
    mem: &mut [u8],
    marks: &mut [u8],
) -> Reached
    requires { (from < budget) × Ready map.now mem.old marks.old × WellFormed (open_of start) cells.old × (acts (open_of start) ≡ false) }
    ensures { (goes_from budget map.now result cells.new (both mem.new marks.new) ≡ run (budget - from) from map.now (open_of start) cells.old (both mem.old marks.old)) × (IfNone result.stop ((from < result.steps) × (result.steps ≤ budget) × WellFormed (open_of result.core) cells.new × Bytes (both mem.new marks.new))) }
{
    let mut o = start;
    for n in from..budget {
        match exec::instruction(map, o, cells, mem, marks) {
            Ok(next) => {
                o = o.after(next);
                if !next.is_calm() {
                    if exec::acts(o) {
                        return Reached {
                            stop: None,
                            steps: n + 1,
                            core: o,
                        };
                    }
                }
            }
            Err(stop) => {
                return Reached {
                    stop: Some(stop),
                    steps: n,
                    core: o,
                };
            }
        }
    }
    Reached {
        stop: None,
        steps: budget,
        core: o,
    }
}

// The state is well-formed, and stays so: that is a theorem of the definition too (`run_well_formed`), and the clauses only pass it on. The
// loop has no index: `instructions` takes many steps at once.
pub fn run(
    budget: u32,
    map: &Map,
    start: Open,
    cells: &mut Cells,
    mem: &mut [u8],
    marks: &mut [u8],
) -> Ran
    requires { Ready map.now mem.old marks.old × WellFormed start cells.old }
    ensures { record { ran = result; cells = cells.new; mem = both mem.new marks.new } ≡ run budget 0 map.now start cells.old (both mem.old marks.old) }
{
    let mut r = Reached {
        stop: None,
        steps: 0,
        core: Packed::pack(start),
    };
    while r.steps < budget {
        if exec::acts(r.core) {
            match exec::attend(r.core, cells) {
                Ok(next) => {
                    r.core = r.core.after(next);
                    r.steps += 1;
                }
                Err(stop) => {
                    r.stop = Some(stop);
                    return ended(r);
                }
            }
        } else {
            r = instructions(budget, r.steps, map, r.core, cells, mem, marks);
            if r.stop.is_some() {
                return ended(r);
            }
        }
    }
    ended(r)
}
