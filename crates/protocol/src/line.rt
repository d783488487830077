// The bytes of an event or a word, put together and then written at once.
ghost use Rattle.std.specs.Prelude.{◌≡◌, ℕ, true, ◌+◌, ◌*◌, ◌<◌, ◌≤◌, List, [], ◌∷◌, ◌++◌, length, take, drop, nat_le};
ghost use Rattle.few.specs.Held.{held};
ghost use Rattle.protocol.specs.Added.{Added, Wrote};
ghost use Rattle.protocol.specs.Fields.{digits, unsigned, marked, spell};
ghost use Rattle.protocol.specs.Fields.{row as a_row};
ghost use Rattle.protocol.specs.Meaning.{part, lies};
ghost use Rattle.protocol.specs.Numbers.{kind_number, word_number};

use crate::kinds::{Kind, WordKind};
use crate::types::{Part, Patch};
use few::Few;
use std::marker::Model;

// Those of the longest line that has no row.
const MOST: usize = 15;

#[derive(Drop)]
pub struct Line {
    bytes: Few<u8, MOST>,
}

impl Model for Line {
    ghost Value = { List ℕ };

    ghost view = { λ l. held l.bytes };
}

// Each asks for room for its own bytes, where the line then stands: that is no fact about every line.
impl Line {
    fn new() -> Line
        ensures { result ≡ [] }
    {
        Line { bytes: Few::new(0) }
    }

    // What an event begins with.
    pub fn of(kind: Kind) -> Line
        ensures { result ≡ kind_number kind ∷ [] }
    {
        Line::new().byte(kind.number())
    }

    // What a word to a program begins with.
    pub fn to(program: u8, kind: WordKind) -> Line
        ensures { result ≡ program ∷ word_number kind ∷ [] }
    {
        Line::new().byte(program).byte(kind.number())
    }

    fn with(mut self, more: &[u8]) -> Line
        requires { length self + length more.now ≤ MOST }
        ensures { result ≡ self ++ more.now }
    {
        let _ = self.bytes.extend_from_slice(more);
        self
    }

    pub fn byte(self, b: u8) -> Line
        requires { length self < MOST }
        ensures { result ≡ self ++ b ∷ [] }
    {
        self.with(&[b])
    }

    pub fn two(self, v: u16) -> Line
        requires { length self + 2 ≤ MOST }
        ensures { result ≡ self ++ digits 2 v }
    {
        self.with(&v.to_le_bytes())
    }

    pub fn four(self, v: u32) -> Line
        requires { length self + 4 ≤ MOST }
        ensures { result ≡ self ++ digits 4 v }
    {
        self.with(&v.to_le_bytes())
    }

    // Two bytes with sign.
    pub fn near(self, v: i16) -> Line
        requires { length self + 2 ≤ MOST }
        ensures { result ≡ self ++ digits 2 (unsigned 32768 v) }
    {
        self.two(v.cast_unsigned())
    }

    // Four bytes with sign.
    pub fn far(self, v: i32) -> Line
        requires { length self + 4 ≤ MOST }
        ensures { result ≡ self ++ digits 4 (unsigned 2147483648 v) }
    {
        self.four(v.cast_unsigned())
    }

    pub fn mark(self, b: bool) -> Line
        requires { length self < MOST }
        ensures { result ≡ self ++ marked b ∷ [] }
    {
        self.byte(u8::from(b))
    }

    // A box of a window's own dots.
    pub fn patch(self, p: Patch) -> Line
        requires { length self + 8 ≤ MOST }
        ensures { result ≡ self ++ (digits 2 p.x ++ (digits 2 p.y ++ (digits 2 p.wide ++ digits 2 p.high))) }
    {
        self.two(p.x).two(p.y).two(p.wide).two(p.high)
    }

    fn as_slice(&self) -> &[u8]
        ensures { result.now ≡ self.now }
    {
        self.bytes.as_slice()
    }

    // Writes it from the byte `at` on, if there is room: how many bytes it has.
    pub fn write(self, out: &mut [u8], at: usize) -> Option<usize>
        ensures { Wrote true at self out.old out.new result }
    {
        let bytes = self.as_slice();
        if !room(out.len(), at, bytes.len()) {
            return None;
        }
        put(out, at, bytes);
        Some(bytes.len())
    }

    // Writes it with a row behind it, whose elements have so many bytes each, if the row lies in the source and there is room.
    pub fn write_row(
        self,
        out: &mut [u8],
        at: usize,
        source: &[u8],
        row: Part,
        width: u8,
    ) -> Option<usize>
        requires { length self + 2 ≤ MOST }
        ensures { Wrote (lies width source.now row) at (self ++ spell (a_row width) (part width source.now row)) out.old out.new result }
    {
        if !row.lies_in(width, source.len()) {
            return None;
        }
        let line = self.two(row.count);
        let head = line.as_slice();
        let elements = &source[row.from..row.from + width as usize * row.count as usize];
        let size = head.len() + elements.len();
        if !room(out.len(), at, size) {
            return None;
        }
        put(out, at, head);
        put(out, at + head.len(), elements);
        Some(size)
    }
}

impl Part {
    // Whether it lies in a row of so many bytes, with elements of so many each.
    pub(crate) fn lies_in(self, width: u8, total: usize) -> bool
        ensures { result ≡ nat_le (self.from + width * self.count) total }
    {
        room(total, self.from, width as usize * self.count as usize)
    }
}

// Whether `size` bytes from the byte `at` on lie in a row of so many.
pub fn room(total: usize, at: usize, size: usize) -> bool
    ensures { result ≡ nat_le (at + size) total }
{
    at <= total && total - at >= size
}

// Bytes written where there is room for them.
fn put(out: &mut [u8], at: usize, bytes: &[u8])
    requires { at + length bytes.now ≤ length out.old }
    ensures { Added at (at + length bytes.now) bytes.now out.old out.new }
{
    out[at..at + bytes.len()].copy_from_slice(bytes);
}
