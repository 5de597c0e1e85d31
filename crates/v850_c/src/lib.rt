// What a host in C links: the library's two entries under their names, each with its clause again. Slices cross as a pointer and then a
// length; `include/v850.h` declares them so.
#![tactic(auto)]

ghost use Rattle.std.specs.Prelude.{◌≡◌};
ghost use Rattle.v850.specs.Entry.{called, reset};

use v850::entry;

// The run.
#[unsafe(no_mangle)]
pub extern "C" fn v850_run(
    block: &mut [u8],
    memory: &mut [u8],
    marks: &mut [u8],
    report: &mut [u8],
    budget: u32,
) -> u32
    ensures { record { answer = result; block = block.new; memory = memory.new; marks = marks.new; report = report.new } ≡ called block.old memory.old marks.old report.old budget }
{
    entry::v850_run(block, memory, marks, report, budget)
}

// Reset.
#[unsafe(no_mangle)]
pub extern "C" fn v850_reset(block: &mut [u8]) -> u32
    ensures { record { answer = result; block = block.new } ≡ reset block.old }
{
    entry::v850_reset(block)
}
