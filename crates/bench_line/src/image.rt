// The input as a memory, and its run from reset.
ghost use Rattle.std.specs.Prelude.{◌≡◌, ◌≤◌, length};
ghost use Rattle.bench_line.specs.Line.{IMAGE, padded, start_block, Leaves, ran};

use crate::IMAGE;
use v850::block::{BYTES, REPORT};
use v850::entry::SIZE;
use v850::{block, entry};

const BUDGET: u32 = 1000;

// Where the length and the rights of region 0 stand.
const LENGTH: usize = 4 * (block::MAP + 1);

const RIGHTS: usize = 4 * (block::MAP + 3);

// To read, to write and to fetch.
const ALL_RIGHTS: u8 = 1 + 2 + 4;

// The input, and zeros behind it.
fn padded(input: &[u8]) -> [u8; IMAGE]
    requires { length input.now ≤ IMAGE }
    ensures { result ≡ padded input.now }
{
    let mut image = [0u8; IMAGE];
    image[..input.len()].copy_from_slice(input);
    image
}

// The block of the reset state, with all of the memory at address 0 and all rights.
fn start_block() -> [u8; BYTES]
    ensures { result ≡ start_block }
{
    let mut block = [0u8; BYTES];
    block[LENGTH..LENGTH + 4].copy_from_slice(&(IMAGE as u32).to_le_bytes());
    block[RIGHTS] = ALL_RIGHTS;
    entry::v850_reset(&mut block);
    block
}

// What a run leaves.
#[derive(Clone, Copy)]
pub(crate) struct End {
    pub(crate) answer: u32,
    pub(crate) block: [u8; BYTES],
    pub(crate) report: [u8; REPORT],
}

// Runs the input from the reset state. Input that is too long is not run.
pub(crate) fn run(input: &[u8]) -> End
    ensures { Leaves (ran input.now) result.answer result.block result.report }
{
    let mut block = start_block();
    let mut report = [0u8; REPORT];
    if input.len() > IMAGE {
        return End {
            answer: SIZE,
            block,
            report,
        };
    }
    let mut memory = padded(input);
    let mut marks = [0u8; IMAGE];
    let answer = entry::v850_run(&mut block, &mut memory, &mut marks, &mut report, BUDGET);
    End {
        answer,
        block,
        report,
    }
}
