// From a reader to standard output: reads the input, and writes its line. What the line is, `bench_line` says and proves; no
// contract can say what the system's streams give or take.
#![tactic(auto)]

ghost use Rattle.std.specs.Io.{ReadsAtMost};

use bench_line::{IMAGE, LONGEST};
use std::io::Read;
use std::{fmt, io};

// One byte more than an image has, so that a longer input is told from a full one.
const ROOM: usize = IMAGE + 1;

// Why there is no line: an input that cannot be read to its end has none, and one can be refused by the output.
#[derive(Clone, Copy)]
enum Failure {
    Input,
    Line,
}

impl fmt::Display for Failure {
    fn fmt<W: fmt::Write>(&self, f: &mut fmt::Formatter<W>) -> fmt::Result {
        match self {
            Failure::Input => write!(f, "the input cannot be read"),
            Failure::Line => write!(f, "the line cannot be written"),
        }
    }
}

// Reads to the end of the input, or until the room is full, and returns how many bytes that are. A read may bring fewer bytes
// than there is room for, and brings none at the end. (`read_exact` does not say how many came before the end.)
fn read(reader: &mut impl Read, room: &mut [u8]) -> io::Result<usize>
    ensures { ReadsAtMost result room.new }
{
    let mut at = 0;
    while at < room.len() {
        let n = reader.read(&mut room[at..])?;
        if n == 0 {
            break;
        }
        at += n;
    }
    Ok(at)
}

fn answer(rt: &impl Print, reader: &mut impl Read) -> Result<(), Failure> {
    let mut room = [0u8; ROOM];
    let n = read(reader, &mut room).map_err(|_| Failure::Input)?;
    let mut out = [0u8; LONGEST];
    let long = bench_line::line(&room[..n], &mut out);
    rt.write_all(&out[..long]).map_err(|_| Failure::Line)
}

// Writes the line of the input, or to standard error why there is none. The programs `bench` and `bench_*` are this call and no
// more: a program is tested on one input, so each input has a program.
pub fn bench(rt: &(impl Print + Eprint), reader: &mut impl Read) {
    if let Err(failure) = answer(rt, reader) {
        let _ = eprintln!(rt; "bench: {failure}");
    }
}
