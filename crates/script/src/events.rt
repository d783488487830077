// An event by its words.
ghost use Rattle.script.specs.Putting.{Puts};
ghost use Rattle.std.specs.Option.{option_map};
ghost use Rattle.protocol.specs.Formats.{encode};
ghost use Rattle.script.specs.Sentences.{texts, kind_says};
ghost use Rattle.script.specs.Tables.{number_of, row_of, rest_bytes};

use crate::fields::add;
use crate::kinds::Kind;
use crate::problem::Problem;
use crate::rows::{put_fields, put_row};

// What is left behind the fields: a row, or nothing.
fn put_rest<'a>(kind: Kind, words: &[&'a str], out: &mut Vec<u8>) -> Result<(), Problem<'a>>
    ensures { Puts (rest_bytes (row_of kind) (texts words.now)) out.old.items out.new.items result }
{
    match kind.row() {
        Some(element) => put_row(kind, element, words, out),
        None if words.is_empty() => Ok(()),
        None => Err(Problem::Fields { kind }),
    }
}

// The event of a kind whose fields the words say.
pub fn put_event<'a>(kind: Kind, words: &[&'a str], out: &mut Vec<u8>) -> Result<(), Problem<'a>>
    ensures { Puts (option_map encode (kind_says (number_of kind) (texts words.now))) out.old.items out.new.items result }
{
    let fields = kind.fields();
    let (words, rest) = words
        .split_at_checked(fields.len())
        .ok_or(Problem::Fields { kind })?;
    add(out, &[kind.number()])?;
    put_fields(fields, words, out)?;
    put_rest(kind, rest, out)
}
