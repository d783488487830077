// Fields read one after another: what each says, or the first byte in fault.
ghost use Rattle.std.specs.Prelude.{◌≡◌, ℕ, true, ◌+◌, ◌*◌, ◌<◌, ◌≤◌, ◌⊎◌, length, drop, Ok, Err};
ghost use Rattle.protocol.specs.Fields.{number, byte, plain, near, far, mark, only, row};
ghost use Rattle.protocol.specs.Fields.{program as a_program};
ghost use Rattle.protocol.specs.Meaning.{lies};
ghost use Rattle.protocol.specs.Next.{Next, NextPatch, row_said};

use crate::line::room;
use crate::reader::Reader;
use crate::types::{Fault, Part, Patch};

// Calls are shorter than this: a longer one is refused at the last byte that a call may have.
const CALL_END: usize = 4294967296;

impl Reader<'_> {
    // A reader of a row from the byte `start` on, behind the `read` bytes there that tell the kind.
    pub fn begin(bytes: &[u8], start: usize, read: u8) -> Result<Reader<'_>, Fault>
        ensures { elim result [
          | Ok r ↦ (r.bytes.now ≡ bytes.now) × (r.start ≡ start) × (r.read ≡ read)
          | Err e ↦ (CALL_END ≤ length bytes.now × (e.place + 1 ≡ CALL_END)) ⊎ ((length bytes.now < CALL_END) × (length bytes.now < start + read) × (e.place ≡ length bytes.now))
        ] }
    {
        if bytes.len() >= CALL_END {
            return Err(Fault {
                place: CALL_END - 1,
            });
        }
        let read = read as usize;
        if !room(bytes.len(), start, read) {
            return Err(Fault { place: bytes.len() });
        }
        Ok(Reader { bytes, start, read })
    }

    // The byte that comes next.
    pub fn end(&self) -> usize
        ensures { result ≡ self.now.start + self.now.read }
    {
        self.start + self.read
    }

    // The next `size` bytes: the place of the first of them.
    fn take(&mut self, size: usize) -> Result<usize, Fault>
        ensures found { elim result [
          | Ok at ↦ (at ≡ self.old.start + self.old.read) × (self.new.read ≡ self.old.read + size) × (at + size ≤ length self.old.bytes.now)
          | Err e ↦ (length self.old.bytes.now < self.old.start + (self.old.read + size)) × (e.place ≡ length self.old.bytes.now)
        ] }
        ensures bytes { self.new.bytes.now ≡ self.old.bytes.now }
        ensures start { self.new.start ≡ self.old.start }
    {
        let at = self.end();
        if self.bytes.len() - at < size {
            return Err(Fault {
                place: self.bytes.len(),
            });
        }
        self.read += size;
        Ok(at)
    }

    pub fn byte(&mut self) -> Result<u8, Fault>
        ensures { Next byte 0 self.old self.new result }
    {
        let at = self.take(1)?;
        Ok(self.bytes[at])
    }

    // The number of a program: one byte.
    pub fn program(&mut self, programs: u8) -> Result<u8, Fault>
        ensures { Next a_program programs self.old self.new result }
    {
        let place = self.end();
        let program = self.byte()?;
        if program < programs {
            Ok(program)
        } else {
            Err(Fault { place })
        }
    }

    pub fn two(&mut self) -> Result<u16, Fault>
        ensures { Next (plain 2) 0 self.old self.new result }
    {
        let at = self.take(2)?;
        Ok(two_at(self.bytes, at))
    }

    pub fn four(&mut self) -> Result<u32, Fault>
        ensures { Next (plain 4) 0 self.old self.new result }
    {
        let at = self.take(4)?;
        Ok(four_at(self.bytes, at))
    }

    // Two bytes with sign.
    pub fn near(&mut self) -> Result<i16, Fault>
        ensures { Next near 0 self.old self.new result }
    {
        let at = self.take(2)?;
        Ok(two_at(self.bytes, at).cast_signed())
    }

    // Four bytes with sign.
    pub fn far(&mut self) -> Result<i32, Fault>
        ensures { Next far 0 self.old self.new result }
    {
        let at = self.take(4)?;
        Ok(four_at(self.bytes, at).cast_signed())
    }

    // One byte, 0 or 1.
    pub fn mark(&mut self) -> Result<bool, Fault>
        ensures { Next mark 0 self.old self.new result }
    {
        let place = self.end();
        match self.byte()? {
            0 => Ok(false),
            1 => Ok(true),
            _ => Err(Fault { place }),
        }
    }

    // In place of a window's number stands 255.
    pub fn none(&mut self) -> Result<(), Fault>
        ensures { Next (only 255) 0 self.old self.new result }
    {
        let place = self.end();
        if self.byte()? == 255 {
            Ok(())
        } else {
            Err(Fault { place })
        }
    }

    // A box of a window's own dots: four numbers of two bytes.
    pub fn patch(&mut self) -> Result<Patch, Fault>
        ensures found { NextPatch self.old.bytes.now (self.old.start + self.old.read) result }
        ensures read { elim result [ Ok _ ↦ self.new.read ≡ self.old.read + 8 | Err _ ↦ Unit {0} ] }
        ensures bytes { self.new.bytes.now ≡ self.old.bytes.now }
        ensures start { self.new.start ≡ self.old.start }
    {
        Ok(Patch {
            x: self.two()?,
            y: self.two()?,
            wide: self.two()?,
            high: self.two()?,
        })
    }

    // A row of elements of so many bytes each: how many there are, in two bytes, and then they.
    pub fn row(&mut self, width: u8) -> Result<Part, Fault>
        ensures value { Next (row width) 0 self.old self.new (row_said width self.old.bytes.now result) }
        ensures had { elim result [ Ok q ↦ lies width self.old.bytes.now q ≡ true | Err e ↦ Unit {0} ] }
    {
        let count = self.two()?;
        let from = self.take(width as usize * count as usize)?;
        Ok(Part { from, count })
    }
}

// One function for each width: the library has one for each too, and a generic one over them would be no shorter.

// The number in the two bytes from the byte `at` on.
#[tactic(auto, using(crate::proofs::Digits::number_two))]
fn two_at(bytes: &[u8], at: usize) -> u16
    requires { at + 2 ≤ length bytes.now }
    ensures { result ≡ number 2 (drop at bytes.now) }
{
    u16::from_le_bytes([bytes[at], bytes[at + 1]])
}

// The number in the four bytes from the byte `at` on.
pub fn four_at(bytes: &[u8], at: usize) -> u32
    requires { at + 4 ≤ length bytes.now }
    ensures { result ≡ number 4 (drop at bytes.now) }
{
    u32::from_le_bytes([bytes[at], bytes[at + 1], bytes[at + 2], bytes[at + 3]])
}
