// Cells: numbers beside their marks. Cells 0 to 31 are the registers, 32 to 37 the system registers.
ghost use Rattle.std.specs.Prelude.{◌≡◌, ◌<◌};
ghost use Rattle.machine.specs.Marked.{both, mark_of, cell, put};
ghost use Rattle.machine.specs.Psw.{reg, put_reg, REGS, CELLS};

use machine::Tv;
use std::marker::Model;

// How many cells there are, and how many of them are registers.
pub const CELLS: usize = 38;

const REGS: u32 = 32;

// Which cell is which, behind the registers.
pub const EIPC: usize = 32;

pub const EIPSW: usize = 33;

pub const FEPC: usize = 34;

pub const FEPSW: usize = 35;

pub const ECR: usize = 36;

pub const PSW: usize = 37;

// In clauses, the definition's cells, which are two lists beside each other, of which `edit` takes one alone; so are these. A mark is a byte
// of its own: a register's is 0 or 1, and of a saved PSW and the flags it is bits.
#[derive(Drop)]
pub struct Cells {
    pub(crate) nums: [u32; CELLS],
    pub(crate) marks: [u8; CELLS],
}

impl Model for Cells {
    ghost use Rattle.machine.specs.Marked.{Cells, both};

    ghost Value = { Cells };

    ghost view = { λ c. both c.nums c.marks };
}

// A mark as it is written.
pub fn mark_of(mark: bool) -> u8
    ensures { result ≡ mark_of mark }
{
    u8::from(mark)
}

impl Cells {
    pub fn new(nums: [u32; CELLS], marks: [u8; CELLS]) -> Cells
        ensures { result ≡ both nums marks }
    {
        Cells { nums, marks }
    }

    pub fn nums(&self) -> &[u32; CELLS]
        ensures { result.now ≡ self.now.nums }
    {
        &self.nums
    }

    pub fn marks(&self) -> &[u8; CELLS]
        ensures { result.now ≡ self.now.marks }
    {
        &self.marks
    }

    // A cell by its number, here and in `psw`: callers name it by a constant, so a type for numbers below CELLS would be made at each call.
    pub fn get(&self, i: u32) -> Tv
        requires { i < CELLS }
        ensures { result ≡ cell self.now i }
    {
        let k = i as usize;
        Tv {
            val: self.nums[k],
            mark: self.marks[k] != 0,
        }
    }

    pub fn put(&mut self, i: u32, v: Tv)
        requires { i < CELLS }
        ensures { self.new ≡ put i v self.old }
    {
        let k = i as usize;
        self.nums[k] = v.val;
        self.marks[k] = mark_of(v.mark);
    }

    // Register n, by its low five bits.
    pub fn reg(&self, n: u32) -> Tv
        ensures { result ≡ reg n self.now }
    {
        self.get(n % REGS)
    }

    // Writing r0 drops the value.
    #[tactic(auto, unfolding(machine::specs::Psw::put_reg))]
    pub fn put_reg(&mut self, n: u32, v: Tv)
        ensures { self.new ≡ put_reg n v self.old }
    {
        let i = n % REGS;
        if i != 0 {
            self.put(i, v);
        }
    }
}
