// The block of 236 bytes as 59 words: taken apart once, and put together once.
ghost use Rattle.std.specs.Prelude.{◌≡◌, ◌++◌, ◌+◌, ◌*◌, ◌<◌, length, take, drop};
ghost use Rattle.machine.specs.Marked.{both};
ghost use Rattle.machine.specs.Run.{reset_open, reset_cells};
ghost use Rattle.machine.specs.WellFormed.{WellFormed};
ghost use Rattle.v850.specs.Block.{bytes_of, bytes_of_word, word_at, words_from, BYTES, WORDS, REPORT, report_of, map_in, core_in, nums_in, marks_in, pack_bits, words_of, good_state};
ghost use Rattle.v850.specs.BlockLaws.{Marks, sys_marks};

use machine::Open;
use state::cells;
use state::cells::{CELLS, Cells};
use state::map::Map;
use std::array;

// How many bytes and words there are, and which word is which. Words 0 to 31 are r0 to r31.
pub const BYTES: usize = 236;

const WORDS: usize = BYTES / 4;

const REGS: usize = 32;

pub const PC: usize = 32;

pub const PSW: usize = 33;

const EIPC: usize = 34;

const EIPSW: usize = 35;

const FEPC: usize = 36;

const FEPSW: usize = 37;

const ECR: usize = 38;

const CODE: usize = 39;

const WAITS: usize = 40;

const REG_MARKS: usize = 41;

const SYS_MARKS: usize = 42;

pub const MAP: usize = 43;

const MAP_WORDS: usize = WORDS - MAP;

// The same of the report.
pub const REPORT: usize = 8;

pub const STEPS: usize = 0;

pub const PLACE: usize = 1;

// PSW after reset: ID is set.
const RESET_PSW: u32 = 0x20;

// Word i of a block or a report.
pub fn word_at(b: &[u8], i: usize) -> u32
    requires { 4 * i + 3 < length b.now }
    ensures { result ≡ word_at b.now i }
{
    let k = 4 * i;
    u32::from_le_bytes([b[k], b[k + 1], b[k + 2], b[k + 3]])
}

// Word i of a block or a report, as four bytes.
fn put_word(b: &mut [u8], i: usize, w: u32)
    requires { 4 * i + 3 < length b.old }
    ensures { b.new ≡ take (4 * i) b.old ++ (bytes_of_word w ++ drop (4 * i + 4) b.old) }
{
    let k = 4 * i;
    b[k..k + 4].copy_from_slice(&w.to_le_bytes());
}

// The report: steps and place.
pub(crate) fn put_report(report: &mut [u8], steps: u32, place: u32)
    requires { length report.old ≡ REPORT }
    ensures { report.new ≡ report_of steps place }
{
    put_word(report, STEPS, steps);
    put_word(report, PLACE, place);
}

// The word of the registers' marks: bit n is the mark of rn.
fn reg_marks(tags: &[u8; CELLS]) -> u32
    requires { Marks tags.now }
    ensures { result ≡ pack_bits (take 32 tags.now) }
{
    tags[..REGS]
        .iter()
        .rfold(0, |word, tag| word << 1 | u32::from(*tag))
}

// The word of the system registers' marks.
fn sys_marks(tags: &[u8; CELLS]) -> u32
    requires { Marks tags.now }
    ensures { result ≡ sys_marks tags.now }
{
    let pcs = tags[cells::EIPC] + 2 * tags[cells::FEPC];
    u32::from_le_bytes([
        tags[cells::PSW] % 32,
        tags[cells::EIPSW],
        tags[cells::FEPSW],
        pcs,
    ])
}

// The words of a block. Taken apart they are the map, what is never marked, and the cells' numbers and marks.
#[derive(Drop)]
pub(crate) struct Words([u32; WORDS]);

impl Words {
    // Out of a block's bytes.
    pub(crate) fn read(block: &[u8]) -> Words
        requires { length block.now ≡ BYTES }
        ensures { result.0 ≡ words_from block.now 0 WORDS }
    {
        Words(array::from_fn(|i| word_at(block, i)))
    }

    // As a block's bytes.
    pub(crate) fn write(&self, block: &mut [u8])
        requires { length block.old ≡ BYTES }
        ensures { block.new ≡ bytes_of self.now.0 }
    {
        for (i, word) in self.0.iter().enumerate() {
            put_word(block, i, *word);
        }
    }

    // The map.
    pub(crate) fn map(&self) -> [u32; MAP_WORDS]
        ensures { result ≡ map_in self.now.0 }
    {
        let mut map = [0; MAP_WORDS];
        map.copy_from_slice(&self.0[MAP..]);
        map
    }

    // What is never marked.
    pub(crate) fn core(&self) -> Open
        ensures { result ≡ core_in self.now.0 }
    {
        let ws = &self.0;
        let psw = ws[PSW];
        let [halted, nmi, _, _] = ws[WAITS].to_le_bytes();
        Open {
            pc: ws[PC],
            np: (psw >> 7) % 2,
            ep: (psw >> 6) % 2,
            id: (psw >> 5) % 2,
            ecr: ws[ECR],
            code: ws[CODE],
            nmi: u32::from(nmi),
            halted: u32::from(halted),
        }
    }

    // The numbers of the cells.
    fn nums(&self) -> [u32; CELLS]
        ensures { result ≡ nums_in self.now.0 }
    {
        let ws = &self.0;
        let mut nums = [0; CELLS];
        nums[..REGS].copy_from_slice(&ws[..REGS]);
        nums[cells::EIPC] = ws[EIPC];
        nums[cells::EIPSW] = ws[EIPSW];
        nums[cells::FEPC] = ws[FEPC];
        nums[cells::FEPSW] = ws[FEPSW];
        nums[cells::ECR] = 0;
        nums[cells::PSW] = ws[PSW] % 32;
        nums
    }

    // Their marks.
    fn marks(&self) -> [u8; CELLS]
        ensures { result ≡ marks_in self.now.0 }
    {
        let regs = self.0[REG_MARKS];
        let [psw, eipsw, fepsw, pcs] = self.0[SYS_MARKS].to_le_bytes();
        let mut tags = [0; CELLS];
        for (n, tag) in tags[..REGS].iter_mut().enumerate() {
            *tag = ((regs >> n) % 2) as u8;
        }
        tags[cells::EIPC] = pcs % 2;
        tags[cells::EIPSW] = eipsw;
        tags[cells::FEPC] = pcs / 2 % 2;
        tags[cells::FEPSW] = fepsw;
        tags[cells::ECR] = 0;
        tags[cells::PSW] = psw % 32;
        tags
    }

    // Both: the cells.
    pub(crate) fn cells(&self) -> Cells
        ensures { result ≡ both (nums_in self.now.0) (marks_in self.now.0) }
    {
        Cells::new(self.nums(), self.marks())
    }

    // Put together: of what is never marked, the cells, and the map.
    pub(crate) fn of(o: Open, cells: &Cells, map: &Map) -> Words
        requires { WellFormed o cells.now }
        ensures { result.0 ≡ words_of o cells.now map.now }
    {
        let nums = cells.nums();
        let tags = cells.marks();
        let mut ws = [0; WORDS];
        ws[..REGS].copy_from_slice(&nums[..REGS]);
        ws[PC] = o.pc;
        ws[PSW] = cells.psw(o);
        ws[EIPC] = nums[cells::EIPC];
        ws[EIPSW] = nums[cells::EIPSW];
        ws[FEPC] = nums[cells::FEPC];
        ws[FEPSW] = nums[cells::FEPSW];
        ws[ECR] = o.ecr;
        ws[CODE] = o.code;
        ws[WAITS] = o.halted + 0x100 * o.nmi;
        ws[REG_MARKS] = reg_marks(tags);
        ws[SYS_MARKS] = sys_marks(tags);
        ws[MAP..].copy_from_slice(map.words());
        Words(ws)
    }

    // The words after reset: 0, but for PSW and the map. Made by themselves, they leave the words of a run to the run alone, whose code
    // the compiler then makes in one piece.
    pub(crate) fn reset(map: &[u32; MAP_WORDS]) -> Words
        ensures { result.0 ≡ words_of reset_open reset_cells map.now }
    {
        let mut ws = [0; WORDS];
        ws[PSW] = RESET_PSW;
        ws[MAP..].copy_from_slice(map);
        Words(ws)
    }

    // STATE: the tests, in the order of the definition.
    pub(crate) fn good_state(&self) -> bool
        ensures { result ≡ good_state self.now.0 }
    {
        let ws = &self.0;
        let pc = ws[PC];
        let code = ws[CODE];
        let good_code = (code == 0) | ((code % 16 == 0) & ((0x80 <= code) & (code <= 0xff0)));
        let [halted, nmi, filler, filler2] = ws[WAITS].to_le_bytes();
        let [psw_marks, _, _, pc_marks] = ws[SYS_MARKS].to_le_bytes();
        (ws[0] == 0)
            & (ws[REG_MARKS] % 2 == 0)
            & (pc % 2 == 0)
            & (pc <= 0xfffffe)
            & (ws[PSW] <= 0xff)
            & (ws[EIPSW] <= 0xff)
            & (ws[FEPSW] <= 0xff)
            & (ws[EIPC] <= 0xffffff)
            & (ws[FEPC] <= 0xffffff)
            & good_code
            & (halted <= 1)
            & (nmi <= 1)
            & (filler == 0)
            & (filler2 == 0)
            & (psw_marks < 32)
            & (pc_marks <= 3)
    }
}
