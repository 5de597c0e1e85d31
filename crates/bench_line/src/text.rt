// The line as it is written: text in ASCII, with room for the longest line. (Not by `write!`: that may answer an `Err`, of which it
// promises nothing, and every input has its line.)
ghost use Rattle.std.specs.Prelude.{◌≡◌, [], ◌∷◌, ◌++◌, ◌+◌, ◌≤◌, ◌<◌, length};
ghost use Rattle.bench_line.specs.Text.{glyph, hex, decimal, digits, DIGITS, Wrote};
ghost use Rattle.bench_line.specs.Line.{LONGEST};

use crate::LONGEST;
use std::marker::Model;

// How many digits the largest word has in decimal.
const DIGITS: usize = 10;

// What is written so far are the first `written` bytes.
#[derive(Drop)]
pub(crate) struct Text {
    room: [u8; LONGEST],
    written: usize,
}

impl Model for Text {
    ghost use Rattle.std.specs.Prelude.{ℕ, List, take, ◌≤◌};
    ghost use Rattle.bench_line.specs.Line.{LONGEST};

    ghost Value = { List ℕ };

    ghost view = { λ t. take t.written t.room };

    ghost invariant = { λ t. t.written ≤ LONGEST };
}

impl Text {
    pub(crate) fn new() -> Text
        ensures { result ≡ [] }
    {
        Text {
            room: [0; LONGEST],
            written: 0,
        }
    }

    fn push(&mut self, byte: u8)
        requires { length self.old < LONGEST }
        ensures { self.new ≡ self.old ++ byte ∷ [] }
    {
        self.room[self.written] = byte;
        self.written += 1;
    }

    // A text as it stands.
    pub(crate) fn put(&mut self, text: &[u8])
        requires { length self.old + length text.now ≤ LONGEST }
        ensures { self.new ≡ self.old ++ text.now }
    {
        for byte in text {
            self.push(*byte);
        }
    }

    // The digits of n in a base, the highest first: at least `least`, with zeros in front, and the last `most` at most.
    fn digits(&mut self, base: u32, least: usize, most: usize, n: u32)
        requires base { (2 ≤ base) × (base ≤ 16) }
        requires room { length self.old + most ≤ LONGEST }
        ensures { self.new ≡ self.old ++ digits base least most n }
    {
        if most == 0 {
            return;
        }
        if n >= base || least > 1 {
            self.digits(base, least.saturating_sub(1), most - 1, n / base);
        }
        self.push(glyph(n % base));
    }

    // A name, and a number in decimal.
    pub(crate) fn decimal(&mut self, name: &[u8], n: u32)
        requires { length self.old + (length name.now + DIGITS) ≤ LONGEST }
        ensures text { self.new ≡ self.old ++ (name.now ++ decimal n) }
        ensures long { length self.new ≤ length self.old + (length name.now + DIGITS) }
    {
        self.put(name);
        self.digits(10, 1, DIGITS, n);
    }

    // A name, and the last k digits of a number in hex.
    pub(crate) fn hex(&mut self, name: &[u8], k: usize, n: u32)
        requires { length self.old + (length name.now + k) ≤ LONGEST }
        ensures text { self.new ≡ self.old ++ (name.now ++ hex k n) }
        ensures long { length self.new ≡ length self.old + (length name.now + k) }
    {
        self.put(name);
        self.digits(16, k, k, n);
    }

    // Writes the text to the start of out, and returns how long it is.
    pub(crate) fn copy_to(&self, out: &mut [u8; LONGEST]) -> usize
        ensures { Wrote out.old 0 self.now out.new result }
    {
        let n = self.written;
        out[..n].copy_from_slice(&self.room[..n]);
        n
    }
}

// A digit below 16.
#[tactic(auto, unfolding(crate::specs::Text::glyph))]
fn glyph(d: u32) -> u8
    requires { d < 16 }
    ensures { result ≡ glyph d }
{
    if d < 10 {
        b'0' + d as u8
    } else {
        b'A' + (d - 10) as u8
    }
}
