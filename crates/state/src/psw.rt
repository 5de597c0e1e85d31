// The flags, PSW and the saved PSWs. Cell 37 holds the flags as PSW bits 0 to 4, and their marks bit for bit.
ghost use Rattle.std.specs.Prelude.{◌≡◌, ◌⊎◌, ◌||◌, cond, false, ◌+◌, ◌*◌, ◌/◌, ◌%◌, ◌^◌, ◌≤◌, ◌<◌, List, ℕ, get_or, set};
ghost use Rattle.word.specs.Shifts.{bit};
ghost use Rattle.machine.specs.Marked.{both};
ghost use Rattle.machine.specs.Psw.{PSW, sys, CELLS, bits, bits_at, put_bits, set_flags, set_z, condition, psw, put_psw_flags, mode, spread, gathered};

use crate::cells::{Cells, PSW as FLAGS};
use machine::{Kind, Open, Tv};
use word::{Computed, flags};

// The flags by their bits.
const Z: u32 = 1;

const S: u32 = 2;

const OV: u32 = 4;

const CY: u32 = 8;

const SAT: u32 = 16;

const ALL: u32 = 32;

// The modes, above them in PSW.
pub const ID: u32 = 0x20;

pub const EP: u32 = 0x40;

pub const NP: u32 = 0x80;

// A bit of a sum of flags, and a sum of bits.
fn on(b: bool, bits: u32) -> u32
    ensures { (result ≡ cond b bits 0) × (result ≤ bits) }
{
    if b { bits } else { 0 }
}

impl Cells {
    // The flags' marks become m. Mostly nothing is or becomes marked, and one test says so: then they are 0 already, and nothing is
    // written.
    fn put_marks(&mut self, mark: bool, m: u8)
        requires { mark ≡ false → get_or self.old.marks (sys PSW) 0 ≡ 0 → m ≡ 0 }
        ensures { self.new ≡ both self.old.nums (set self.old.marks (sys PSW) m) }
    {
        if mark | (self.marks[FLAGS] != 0) {
            self.marks[FLAGS] = m;
        }
    }

    // The flags below bit FROM become `new`: those in `computed` with this mark, the others unmarked. Those from there on stay.
    fn put_below<const FROM: u32>(&mut self, new: u32, computed: u32, mark: bool)
        requires { ((FROM ≡ 2) ⊎ (FROM ≡ 8) ⊎ (FROM ≡ 16)) × (new < FROM) × (computed < FROM) }
        ensures { self.new ≡ both (set self.old.nums (sys PSW) (new + get_or self.old.nums (sys PSW) 0 / FROM % (32 / FROM) * FROM)) (set self.old.marks (sys PSW) (cond mark computed 0 + get_or self.old.marks (sys PSW) 0 / FROM % (32 / FROM) * FROM)) }
    {
        self.nums[FLAGS] = new + self.nums[FLAGS] / FROM % (ALL / FROM) * FROM;
        let kept = u32::from(self.marks[FLAGS]) / FROM % (ALL / FROM) * FROM;
        self.put_marks(mark, (on(mark, computed) + kept) as u8);
    }

    // The flags below SAT become `new`, with this mark. SAT is raised by OV, and its mark is added to.
    fn put_saturated(&mut self, new: u32, ov: bool, mark: bool)
        requires { new < 16 }
        ensures { self.new ≡ both (set self.old.nums (sys PSW) (new + cond (bit 4 (get_or self.old.nums (sys PSW) 0) || ov) 16 0)) (set self.old.marks (sys PSW) (cond mark 15 0 + cond (bit 4 (get_or self.old.marks (sys PSW) 0) || mark) 16 0)) }
    {
        let sat = self.nums[FLAGS] / SAT % 2 == 1;
        let sat_mark = u32::from(self.marks[FLAGS]) / SAT % 2 == 1;
        self.nums[FLAGS] = new + on(sat | ov, SAT);
        self.put_marks(
            mark,
            (on(mark, Z + S + OV + CY) + on(sat_mark | mark, SAT)) as u8,
        );
    }

    // The flags of an operation of this family: a line says which it computes, and from where on they stay.
    #[tactic(auto, using(crate::proofs::Flags::set_flags_lem))]
    pub fn set_flags(&mut self, kind: Kind, a: Computed, mark: bool)
        ensures { self.new ≡ set_flags kind a mark self.old }
    {
        let z = on(a.z, Z);
        let s = on(a.s, S);
        let ov = on(a.ov, OV);
        let cy = on(a.cy, CY);
        match kind {
            Kind::Quiet => {}
            Kind::Logic => self.put_below::<CY>(z + s, Z + S, mark),
            Kind::Mask => self.put_below::<CY>(z, Z, mark),
            Kind::Shift => self.put_below::<SAT>(z + s + cy, Z + S + CY, mark),
            Kind::Divide => self.put_below::<CY>(z + s + ov, Z + S + OV, mark),
            Kind::Arith => self.put_below::<SAT>(z + s + ov + cy, Z + S + OV + CY, mark),
            Kind::Saturate => self.put_saturated(z + s + ov + cy, a.ov, mark),
        }
    }

    // Z alone.
    #[tactic(auto, using(crate::proofs::Flags::set_z_lem))]
    pub fn set_z(&mut self, z: bool, mark: bool)
        ensures { self.new ≡ set_z z mark self.old }
    {
        self.put_below::<S>(on(z, Z), Z, mark);
    }

    // Condition k as a value, marked if it reads a marked flag.
    #[tactic(auto, unfolding(machine::specs::Psw::condition))]
    pub fn condition(&self, k: u32) -> Tv
        ensures { result ≡ condition k self.now }
    {
        let j = flags::judge(k, self.nums[FLAGS], u32::from(self.marks[FLAGS]));
        Tv {
            val: u32::from(j.holds),
            mark: j.reads,
        }
    }

    // PSW: NP, EP and ID above the flags.
    pub fn psw(&self, o: Open) -> u32
        ensures { result ≡ (psw o self.now).on }
    {
        self.nums[FLAGS] % ID + ID * (o.id % 2) + EP * (o.ep % 2) + NP * (o.np % 2)
    }

    // PSW to the cell of a saved PSW.
    pub fn save_psw(&mut self, i: u32, o: Open)
        requires { i < CELLS }
        ensures { self.new ≡ put_bits i (psw o self.old) self.old }
    {
        let k = i as usize;
        let flag_marks = self.marks[FLAGS] % 32;
        self.nums[k] = self.psw(o);
        self.marks[k] = flag_marks;
    }

    // The flags out of the bits w with the marks m.
    pub fn put_flags(&mut self, w: u32, m: u8)
        ensures { self.new ≡ put_psw_flags (bits w m) self.old }
    {
        self.nums[FLAGS] = w % 32;
        self.marks[FLAGS] = m % 32;
    }

    // The flags out of the saved PSW in cell i.
    pub fn restore_flags(&mut self, i: u32)
        requires { i < CELLS }
        ensures { self.new ≡ put_psw_flags (bits_at i self.old) self.old }
    {
        let k = i as usize;
        self.put_flags(self.nums[k], self.marks[k]);
    }

    // NP, EP and ID of the saved PSW in cell i, as one value.
    pub fn mode(&self, i: u32) -> Tv
        requires { i < CELLS }
        ensures { result ≡ mode (bits_at i self.now) }
    {
        let k = i as usize;
        Tv {
            val: self.nums[k] / 32 % 8,
            mark: self.marks[k] / 32 % 8 != 0,
        }
    }

    // A value to the cell of a saved PSW: all bits marked, or none.
    pub fn put_spread(&mut self, i: u32, v: Tv)
        requires { i < CELLS }
        ensures { self.new ≡ put_bits i (spread v) self.old }
    {
        let k = i as usize;
        self.nums[k] = v.val % 256;
        self.marks[k] = if v.mark { 255 } else { 0 };
    }

    // The saved PSW in cell i as a value, marked if one of its bits is.
    pub fn gathered(&self, i: u32) -> Tv
        requires { i < CELLS }
        ensures { result ≡ gathered (bits_at i self.now) }
    {
        let k = i as usize;
        Tv {
            val: self.nums[k] % 256,
            mark: self.marks[k] != 0,
        }
    }

    // PSW as a value.
    pub fn gathered_psw(&self, o: Open) -> Tv
        ensures { result ≡ gathered (psw o self.now) }
    {
        Tv {
            val: self.psw(o),
            mark: self.marks[FLAGS] % 32 != 0,
        }
    }
}
