// One reader a kind of word. Each is called where the fields of the kind come next.
// (`No` and `Done` differ in the word alone; what they would share is one line.)
ghost use Rattle.protocol.specs.Next.{ReadWord};

use crate::kinds::WordKind;
use crate::reader::Reader;
use crate::types::{Fault, Word};

fn read_no(mut r: Reader<'_>) -> Result<(Word, usize), Fault>
    ensures { ReadWord WordKind.No r.entry result }
{
    r.none()?;
    Ok((Word::No, r.end()))
}

fn read_done(mut r: Reader<'_>) -> Result<(Word, usize), Fault>
    ensures { ReadWord WordKind.Done r.entry result }
{
    r.none()?;
    Ok((Word::Done, r.end()))
}

fn read_made(mut r: Reader<'_>) -> Result<(Word, usize), Fault>
    ensures { ReadWord WordKind.Made r.entry result }
{
    let window = r.byte()?;
    Ok((Word::Made { window }, r.end()))
}

fn read_at(mut r: Reader<'_>) -> Result<(Word, usize), Fault>
    ensures { ReadWord WordKind.At r.entry result }
{
    let word = Word::At {
        window: r.byte()?,
        x: r.far()?,
        y: r.far()?,
    };
    Ok((word, r.end()))
}

fn read_pressed(mut r: Reader<'_>) -> Result<(Word, usize), Fault>
    ensures { ReadWord WordKind.Pressed r.entry result }
{
    let word = Word::Pressed {
        window: r.byte()?,
        down: r.mark()?,
    };
    Ok((word, r.end()))
}

fn read_typed(mut r: Reader<'_>) -> Result<(Word, usize), Fault>
    ensures { ReadWord WordKind.Typed r.entry result }
{
    let word = Word::Typed {
        window: r.byte()?,
        key: r.four()?,
    };
    Ok((word, r.end()))
}

fn read_pasted(mut r: Reader<'_>) -> Result<(Word, usize), Fault>
    ensures { ReadWord WordKind.Pasted r.entry result }
{
    let word = Word::Pasted {
        window: r.byte()?,
        bytes: r.row(1)?,
    };
    Ok((word, r.end()))
}

// What follows the byte of its kind.
pub fn read_word_kind(kind: WordKind, r: Reader<'_>) -> Result<(Word, usize), Fault>
    ensures { ReadWord kind r.entry result }
{
    match kind {
        WordKind::No => read_no(r),
        WordKind::Done => read_done(r),
        WordKind::Made => read_made(r),
        WordKind::At => read_at(r),
        WordKind::Pressed => read_pressed(r),
        WordKind::Typed => read_typed(r),
        WordKind::Pasted => read_pasted(r),
    }
}
