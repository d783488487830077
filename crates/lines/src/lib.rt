// What a program is told, as a line of text.
#![tactic(auto)]

ghost use Rattle.std.specs.Prelude.{◌≡◌, Some, take, drop, flat_map};
ghost use Rattle.lines.specs.Lines.{spaced, text};

use protocol::{Part, Word};
use std::fmt;

// A word and the program that it goes to. The source has the bytes that a word may point to.
#[derive(Drop)]
pub struct Line<'a> {
    pub program: u8,
    pub word: Word,
    pub source: &'a [u8],
}

// Bytes in decimal, each behind a space.
#[derive(Drop)]
struct Spaced<'a>(&'a [u8]);

impl fmt::Display for Spaced<'_> {
    ghost output = { λ s. Some (flat_map spaced s.0.now) };

    fn fmt<W: fmt::Write>(&self, f: &mut fmt::Formatter<W>) -> fmt::Result {
        for b in self.0 {
            write!(f, " {b}")?;
        }
        Ok(())
    }
}

// The bytes of a part, as far as the source has them.
fn part_of(source: &[u8], part: Part) -> &[u8]
    ensures { result.now ≡ take part.count (drop part.from source.now) }
{
    let behind = source.get(part.from..).unwrap_or(&[]);
    let count = usize::from(part.count);
    behind.get(..count).unwrap_or(behind)
}

// The program, the word, the window and what the word says.
impl fmt::Display for Line<'_> {
    ghost output = { λ l. Some (text l.program l.source.now l.word) };

    fn fmt<W: fmt::Write>(&self, f: &mut fmt::Formatter<W>) -> fmt::Result {
        let program = self.program;
        match self.word {
            Word::No => write!(f, "{program} no"),
            Word::Done => write!(f, "{program} done"),
            Word::Made { window } => write!(f, "{program} made {window}"),
            Word::At { window, x, y } => write!(f, "{program} at {window} {x} {y}"),
            Word::Pressed { window, down } => write!(
                f,
                "{program} pressed {window} {}",
                down as u8
            ),
            Word::Typed { window, key } => write!(f, "{program} typed {window} {key}"),
            Word::Pasted { window, bytes } => {
                let bytes = Spaced(part_of(self.source, bytes));
                write!(f, "{program} pasted {window}{bytes}")
            }
        }
    }
}
