// Why a line is refused.
ghost use Rattle.std.specs.Prelude.{◌≡◌};
ghost use Rattle.script.specs.declared.problem.Problem.TheVariants.{Memory};

use crate::kinds::Kind;
use std::alloc::AllocError;
use std::fmt;

// The words are those of the text.
#[derive(Clone, Copy)]
pub enum Problem<'a> {
    // the line's first word names no kind of event
    Unknown { word: &'a str },
    // too few or too many fields
    Fields { kind: Kind },
    // a word that is no number from `low` to `high`
    Number { word: &'a str, low: i32, high: u32 },
    // a row with more numbers than its count can say
    Long { kind: Kind },
    Memory,
}

impl<'a> From<AllocError> for Problem<'a> {
    ghost from_gives = { λ _ p. p ≡ Memory };

    fn from(_: AllocError) -> Problem<'a> {
        Problem::Memory
    }
}

impl<'a> fmt::Display for Problem<'a> {
    fn fmt<W: fmt::Write>(&self, f: &mut fmt::Formatter<W>) -> fmt::Result {
        match self {
            Problem::Unknown { word } => write!(f, "'{word}' is no kind of event: {KINDS}"),
            Problem::Fields { kind } => write!(f, "{} wants {}", kind.name(), kind.wants()),
            Problem::Number { word, low, high } => write!(
                f,
                "'{word}' is no number from {low} to {high}"
            ),
            Problem::Long { kind } => write!(
                f,
                "{} takes a row of at most 65535 numbers",
                kind.name()
            ),
            Problem::Memory => write!(f, "no memory is left"),
        }
    }
}

const KINDS: &str =
    "make, close, move, raise, show, fill, put, copy, offer, point, press, key or paste";
