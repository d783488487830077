// The words of an event in their order.
ghost use Rattle.script.specs.Putting.{Puts};
ghost use Rattle.script.specs.Sentences.{texts};
ghost use Rattle.script.specs.Tables.{each_bytes, row_bytes};

use crate::fields::{Field, add};
use crate::kinds::Kind;
use crate::problem::Problem;

// Each word as its field, as long as there are both.
pub fn put_fields<'a>(
    fields: &[Field],
    words: &[&'a str],
    out: &mut Vec<u8>,
) -> Result<(), Problem<'a>>
    ensures { Puts (each_bytes fields.now (texts words.now)) out.old.items out.new.items result }
{
    for (field, word) in fields.iter().zip(words) {
        field.put(word, out)?;
    }
    Ok(())
}

// A row: how many there are, and then each as the same field.
pub fn put_row<'a>(
    kind: Kind,
    element: Field,
    words: &[&'a str],
    out: &mut Vec<u8>,
) -> Result<(), Problem<'a>>
    ensures { Puts (row_bytes element (texts words.now)) out.old.items out.new.items result }
{
    let count = u16::try_from(words.len()).map_err(|_| Problem::Long { kind })?;
    add(out, &count.to_le_bytes())?;
    for word in words {
        element.put(word, out)?;
    }
    Ok(())
}
