// The fields of an event as words, and as bytes.
ghost use Rattle.std.specs.Prelude.{◌≡◌, ◌≤◌, ◌++◌, length, MatchResult};
ghost use Rattle.std.specs.Option.{option_map};
ghost use Rattle.protocol.specs.Fields.{digits};
ghost use Rattle.script.specs.Numerals.{plain_number};
ghost use Rattle.script.specs.Putting.{Puts, Blames, near_bytes};
ghost use Rattle.script.specs.Tables.{word_bytes};

use crate::numbers::{plain, signed};
use crate::problem::Problem;

// Adds bytes at the end.
pub fn add<'a>(out: &mut Vec<u8>, bytes: &[u8]) -> Result<(), Problem<'a>>
    ensures { MatchResult result (λ _. out.new.items ≡ out.old.items ++ bytes.now) (λ p. Blames p ⊥) }
{
    out.extend_from_slice(bytes)?;
    Ok(())
}

// A number without sign, in so many bytes. The two numbers of a field meet here alone, so they are no struct.
fn put_plain<'a>(
    word: &'a str,
    high: u32,
    width: usize,
    out: &mut Vec<u8>,
) -> Result<(), Problem<'a>>
    requires { width ≤ 4 }
    ensures { Puts (option_map (digits width) (plain_number high word.now)) out.old.items out.new.items result }
{
    let n = plain(word, high).ok_or(Problem::Number { word, low: 0, high })?;
    add(out, &n.to_le_bytes()[..width])
}

// A number with sign, in two bytes.
fn put_signed<'a>(word: &'a str, out: &mut Vec<u8>) -> Result<(), Problem<'a>>
    ensures { Puts (near_bytes word.now) out.old.items out.new.items result }
{
    let n = signed(word).ok_or(Problem::Number {
        word,
        low: -32768,
        high: 32767,
    })?;
    add(out, &n.to_le_bytes())
}

// What one word says.
#[derive(Clone, Copy)]
pub enum Field {
    // the number of a program, from 0 to 63
    Program,
    Byte,
    // two bytes, as places in a picture and sides have
    Side,
    // four bytes, as colours and keys have
    Colour,
    // two bytes with sign
    Near,
    // 0 or 1
    Mark,
}

impl Field {
    // Adds the bytes of what a word says.
    pub fn put<'a>(self, word: &'a str, out: &mut Vec<u8>) -> Result<(), Problem<'a>>
        ensures { Puts (word_bytes self word.now) out.old.items out.new.items result }
    {
        match self {
            Field::Program => put_plain(word, 63, 1, out),
            Field::Byte => put_plain(word, 255, 1, out),
            Field::Side => put_plain(word, 65535, 2, out),
            Field::Colour => put_plain(word, u32::MAX, 4, out),
            Field::Near => put_signed(word, out),
            Field::Mark => put_plain(word, 1, 1, out),
        }
    }
}
