// MAP: whether a map is good for a memory of n bytes. Sums are exact.
ghost use Rattle.std.specs.Prelude.{◌≡◌, ◌^◌, ◌<◌};
ghost use Rattle.machine.specs.Regions.{unused, bounded, good_region, apart, separate, good_map};

use crate::regions;
use crate::regions::WORDS;

// An unused region has no other field.
fn unused(map: &[u32; WORDS], k: usize) -> bool
    requires { k < 4 }
    ensures { result ≡ unused map.now k }
{
    (regions::base(map, k) == 0) & ((regions::offset(map, k) == 0) & (regions::rights(map, k) == 0))
}

// A used region lies within the addresses and within memory.
fn bounded(map: &[u32; WORDS], n: usize, k: usize) -> bool
    requires { k < 4 }
    ensures { result ≡ bounded map.now n k }
{
    let base = regions::base(map, k);
    let size = regions::size(map, k);
    let in_addresses = u64::from(base) + u64::from(size) <= 0x1000000;
    let in_memory = u64::from(regions::offset(map, k)) + u64::from(size) <= n as u64;
    (base % 4 == 0)
        & ((size % 4 == 0) & (in_addresses & (in_memory & (regions::rights(map, k) <= 7))))
}

#[tactic(auto, unfolding(machine::specs::Regions::good_region))]
fn good_region(map: &[u32; WORDS], n: usize, k: usize) -> bool
    requires { k < 4 }
    ensures { result ≡ good_region map.now n k }
{
    if regions::size(map, k) == 0 {
        return unused(map, k);
    }
    bounded(map, n, k)
}

// The l numbers from a on and the m numbers from b on do not meet.
fn apart(a: u32, l: u32, b: u32, m: u32) -> bool
    ensures { result ≡ apart a l b m }
{
    (u64::from(a) + u64::from(l) <= u64::from(b)) | (u64::from(b) + u64::from(m) <= u64::from(a))
}

// Used regions overlap neither in addresses nor in offsets.
#[tactic(auto, unfolding(machine::specs::Regions::separate))]
fn separate(map: &[u32; WORDS], j: usize, k: usize) -> bool
    requires { (j < 4) × (k < 4) }
    ensures { result ≡ separate map.now j k }
{
    let l = regions::size(map, j);
    let m = regions::size(map, k);
    let in_addresses = apart(regions::base(map, j), l, regions::base(map, k), m);
    let in_memory = apart(regions::offset(map, j), l, regions::offset(map, k), m);
    (l == 0) | ((m == 0) | (in_addresses & in_memory))
}

// The ten tests stand one by one, as in the definition.
#[tactic(auto, unfolding(machine::specs::Regions::good_map))]
pub fn good_map(map: &[u32; WORDS], n: usize) -> bool
    ensures { result ≡ good_map map.now n }
{
    good_region(map, n, 0)
        & (good_region(map, n, 1)
            & (good_region(map, n, 2)
                & (good_region(map, n, 3)
                    & (separate(map, 0, 1)
                        & (separate(map, 0, 2)
                            & (separate(map, 0, 3)
                                & (separate(map, 1, 2)
                                    & (separate(map, 1, 3) & separate(map, 2, 3)))))))))
}
