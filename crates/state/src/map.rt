// The map: where an address lies in memory, for one who has a right to it.
ghost use Rattle.std.specs.Prelude.{◌≡◌, true, cond, Some, None, IfSome, ◌^◌, ◌≤◌, ◌<◌};
ghost use Rattle.word.specs.Extend.{sum24};
ghost use Rattle.machine.specs.Regions.{FETCH, size, offset, covers, find, good_map};
ghost use Rattle.state.specs.Windows.{bit_of, seen, Sizes, Laid, spot_of, Onward};

use crate::regions::WORDS;
use crate::{map_check, regions};
use std::marker::Model;
use word::{extend, sums};

// How many sizes of regions there are: three rights' of four.
pub const SIZES: usize = 12;

#[derive(Clone, Copy)]
pub enum Right {
    Read,
    Write,
    Fetch,
}

impl Right {
    // The place of its bit among a region's rights.
    fn bit(self) -> usize
        ensures { (result ≡ bit_of self) × (result < 3) }
    {
        match self {
            Right::Read => 0,
            Right::Write => 1,
            Right::Fetch => 2,
        }
    }
}

// Where an address lies in memory, and how many bytes its region has from there on.
#[derive(Clone, Copy)]
pub struct Place {
    pub at: usize,
    pub left: u32,
}

// The words of a good map, and the sizes of its regions as each right sees them, so that a step tests a region by one comparison. In
// clauses it is its words.
#[derive(Drop)]
pub struct Map {
    words: [u32; WORDS],
    sizes: [u32; SIZES],
}

impl Model for Map {
    ghost use Rattle.std.specs.Prelude.{List, ℕ};
    ghost use Rattle.state.specs.Windows.{Sizes, Laid};

    ghost Value = { List ℕ };

    ghost view = { λ m. m.words };

    ghost invariant = { λ m. Sizes m.words m.sizes × Laid m.words };
}

// The size of region k as a right sees it.
fn seen(map: &[u32; WORDS], right: Right, k: usize) -> u32
    requires { k < 4 }
    ensures { result ≡ seen map.now (bit_of right) k }
{
    if (regions::rights(map, k) >> right.bit()) % 2 == 1 {
        regions::size(map, k)
    } else {
        0
    }
}

// The sizes as each right sees them, written out in the order of the definition's places, 4 * right + k.
#[tactic(auto, using(crate::specs::WindowLaws::twelve))]
pub fn sizes(map: &[u32; WORDS]) -> [u32; SIZES]
    ensures { Sizes map.now result }
{
    [
        seen(map, Right::Read, 0),
        seen(map, Right::Read, 1),
        seen(map, Right::Read, 2),
        seen(map, Right::Read, 3),
        seen(map, Right::Write, 0),
        seen(map, Right::Write, 1),
        seen(map, Right::Write, 2),
        seen(map, Right::Write, 3),
        seen(map, Right::Fetch, 0),
        seen(map, Right::Fetch, 1),
        seen(map, Right::Fetch, 2),
        seen(map, Right::Fetch, 3),
    ]
}

impl Map {
    // The map of these words, if it is good for a memory of n bytes.
    #[tactic(auto, using(crate::specs::WindowLaws::good_laid))]
    pub fn new(words: [u32; WORDS], n: usize) -> Option<Map>
        requires { n ≤ 2 ^ 16 }
        ensures { result ≡ cond (good_map words n) (Some words) None }
    {
        if !map_check::good_map(&words, n) {
            return None;
        }
        Some(Map::laid(words))
    }

    // The map of words that need not be good for any memory.
    pub fn laid(words: [u32; WORDS]) -> Map
        requires { Laid words }
        ensures { result ≡ words }
    {
        let sizes = sizes(&words);
        Map { words, sizes }
    }

    pub fn words(&self) -> &[u32; WORDS]
        ensures { result.now ≡ self.now }
    {
        &self.words
    }

    // Where region k begins in memory, and how long it is.
    pub fn offset(&self, k: usize) -> u32
        requires { k < 4 }
        ensures { result ≡ offset self.now k }
    {
        regions::offset(&self.words, k)
    }

    pub fn size(&self, k: usize) -> u32
        requires { k < 4 }
        ensures { result ≡ size self.now k }
    {
        regions::size(&self.words, k)
    }

    // The size of region k to a right.
    fn size_to(&self, right: Right, k: usize) -> u32
        requires { k < 4 }
        ensures { result ≡ seen self.now (bit_of right) k }
    {
        self.sizes[4 * right.bit() + k]
    }

    // Region k covers the address for this right: one comparison, as a distance below its base wraps.
    #[tactic(auto, using(crate::proofs::Search::near_covers))]
    fn covers(&self, right: Right, k: usize, a: u32) -> bool
        requires { k < 4 }
        ensures { result ≡ covers self.now (2 ^ bit_of right) a k }
    {
        sums::difference(a, regions::base(&self.words, k)) < self.size_to(right, k)
    }

    // Where the address lies in region k, which covers it. The sum is one that may wrap, though it never does: the compiler then keeps it
    // in 32 bits.
    #[tactic(auto, using(crate::proofs::Search::covered_near, crate::proofs::Search::covered_small, crate::proofs::Search::placed))]
    fn place(&self, right: Right, k: usize, a: u32) -> Place
        requires { (k < 4) × (covers self.now (2 ^ bit_of right) a k ≡ true) }
        ensures { (Some result.at ≡ find self.now (2 ^ bit_of right) a) × Onward self.now (2 ^ bit_of right) a result }
    {
        let d = sums::difference(a, regions::base(&self.words, k));
        Place {
            at: sums::sum(regions::offset(&self.words, k), d) as usize,
            left: self.size_to(right, k) - d,
        }
    }

    // The regions are tried in order. They are written out, as the compiler would hold a loop's counter and table in registers that the
    // steps need.
    #[tactic(auto, using(crate::proofs::Search::unplaced))]
    pub fn locate(&self, right: Right, a: u32) -> Option<Place>
        ensures { (spot_of result ≡ find self.now (2 ^ bit_of right) a) × IfSome result (Onward self.now (2 ^ bit_of right) a) }
    {
        if self.covers(right, 0, a) {
            return Some(self.place(right, 0, a));
        }
        if self.covers(right, 1, a) {
            return Some(self.place(right, 1, a));
        }
        if self.covers(right, 2, a) {
            return Some(self.place(right, 2, a));
        }
        if self.covers(right, 3, a) {
            return Some(self.place(right, 3, a));
        }
        None
    }

    pub fn find(&self, right: Right, a: u32) -> Option<usize>
        ensures { result ≡ find self.now (2 ^ bit_of right) a }
    {
        self.locate(right, a).map(|p| p.at)
    }

    // Where the second halfword of an instruction at a lies, whose first one lies at p: mostly behind it in the same region.
    pub fn second(&self, p: Place, a: u32) -> Option<usize>
        requires { Onward self.now FETCH a p }
        ensures { result ≡ find self.now FETCH (sum24 a 2) }
    {
        if 2 < p.left {
            return Some(p.at + 2);
        }
        self.find(Right::Fetch, extend::sum24(a, 2))
    }
}
