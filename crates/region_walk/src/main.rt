// The region view over six good maps, each with every word changed to sixteen values. It writes a line for each word: how many
// parts of the memory were handed out, over all blocks, memories and region numbers, and a sum over their lengths and places.
// tests/walks has the same program in C over the second program, and `make walks` compares.
//
// What it has to write, for some of the lines. A good map with r regions has r parts, in blocks of 236 bytes with either filling
// and in every memory of at most 65,536 bytes that is long enough. So, for the values that leave map 0 good:
//   region 0 base     itself, 0, 2^24 - 16: 3 values, 4 regions, 2 fillings, memories of 64, 68, 65,535 and 65,536: 3 * 32 = 96
//   region 0 length   itself, 4 less, 8: 96
//   region 0 rights   7, 6, 5, 3, 0: 5 * 32 = 160
//   region 1 offset   itself: 32
// Map 5 has no region, and one of length 4, 8, 8 or 16 at address 0 and offset 0 is good: 2 fillings, 5 memories for the shortest
// and 4 for the others: 10 + 8 + 8 + 8 = 34 for each length, and 0 for all other words.
#![tactic(auto)]

ghost use Rattle.std.specs.Prelude.{◌<◌};

mod block;
mod maps;
mod memory;
mod seen;

use maps::{CHANGES, FIELDS, MAPS, Map};
use seen::Seen;
use std::io;
use v850::entry;

// A block of zeros has a good state, and one of ones a bad one.
const FILLINGS: [u8; 2] = [0, 0xFF];

// Lengths of the block and of the memory that a view is given, and region numbers that it is asked for.
const BLOCKS: [usize; 3] = [235, 236, 237];

const MEMORIES: [usize; 7] = [0, 4, 64, 68, 65535, 65536, 65537];

const REGIONS: [u32; 6] = [0, 1, 2, 3, 4, 0xFFFFFFFF];

fn main(rt: HostRuntime) -> io::Result<()> {
    let mut memory = memory::memory();
    for (n, map) in MAPS.iter().enumerate() {
        for region in 0..4 {
            for (field, name) in FIELDS.iter().enumerate() {
                let seen = word(map, region, field, &mut memory);
                println!(rt; "map {n} region {region} {name}: {seen}")?;
            }
        }
    }
    Ok(())
}

// One word of a map, changed to each value, in blocks with either filling.
fn word(map: &Map, region: usize, field: usize, memory: &mut [u8; memory::ROOM]) -> Seen
    requires { (region < 4) × (field < 4) }
{
    let mut seen = Seen::default();
    for change in CHANGES {
        let mut changed = *map;
        changed[region][field] = change.of(map[region][field]);
        for fill in FILLINGS {
            views(&mut seen, &block::block(&changed, fill), memory);
        }
    }
    seen
}

// Every view of a block: the region changes with every view, and the length of the block last.
fn views(seen: &mut Seen, block: &[u8; block::ROOM], memory: &mut [u8; memory::ROOM]) {
    for long in BLOCKS {
        for size in MEMORIES {
            for region in REGIONS {
                seen.note(entry::region(&block[..long], &mut memory[..size], region));
            }
        }
    }
}
