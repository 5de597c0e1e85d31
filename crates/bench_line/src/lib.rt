// The bench: from the bytes of its input to the one line that it writes. A program over it only reads and writes.
#![tactic(auto)]

mod image;
mod text;

ghost use Rattle.std.specs.Prelude.{◌≡◌};
ghost use Rattle.bench_line.specs.Text.{Wrote};
ghost use Rattle.bench_line.specs.Line.{line_of, line};

use text::Text;
use v850::block;

// How many bytes of memory there are, and of input at most.
pub const IMAGE: usize = 4096;

// Room for the longest line.
pub const LONGEST: usize = 65;

// The line of an input, at the start of out. What follows it there stays as it was. Returns how long the line is. (A lent buffer
// and a length, as the clause has them: the project takes no heap.)
pub fn line(input: &[u8], out: &mut [u8; LONGEST]) -> usize
    ensures { Wrote out.old 0 (line input.now) out.new result }
{
    let end = image::run(input);
    let steps = block::word_at(&end.report, block::STEPS);
    let pc = block::word_at(&end.block, block::PC);
    let psw = block::word_at(&end.block, block::PSW);
    let place = block::word_at(&end.report, block::PLACE);
    line_of(end.answer, steps, pc, psw, place).copy_to(out)
}

fn line_of(answer: u32, steps: u32, pc: u32, psw: u32, place: u32) -> Text
    ensures { result ≡ line_of answer steps pc psw place }
{
    let mut text = Text::new();
    text.decimal(b"answer=", answer);
    text.decimal(b" steps=", steps);
    text.hex(b" pc=", 6, pc);
    text.hex(b" psw=", 2, psw);
    text.hex(b" place=", 6, place);
    text.put(b"\n");
    text
}
