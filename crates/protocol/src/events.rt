// One reader a kind of event. Each is called where the fields of the kind come next.
// (`Close` and `Raise` differ in the kind alone; what they would share is two fields, and a helper for those is no shorter.)
ghost use Rattle.std.specs.Prelude.{ℕ};
ghost use Rattle.protocol.specs.Next.{ReadEvent};

use crate::kinds::Kind;
use crate::reader::Reader;
use crate::types::{Event, Fault};

fn read_make(mut r: Reader<'_>, programs: u8) -> Result<(Event, usize), Fault>
    ensures { ReadEvent Kind.Make programs r.entry result }
{
    let program = r.program(programs)?;
    let left = r.near()?;
    let top = r.near()?;
    let event = Event::Make {
        program,
        x: left,
        y: top,
        wide: r.two()?,
        high: r.two()?,
    };
    Ok((event, r.end()))
}

fn read_close(mut r: Reader<'_>, programs: u8) -> Result<(Event, usize), Fault>
    ensures { ReadEvent Kind.Close programs r.entry result }
{
    let event = Event::Close {
        program: r.program(programs)?,
        window: r.byte()?,
    };
    Ok((event, r.end()))
}

fn read_move(mut r: Reader<'_>, programs: u8) -> Result<(Event, usize), Fault>
    ensures { ReadEvent Kind.Move programs r.entry result }
{
    let event = Event::Move {
        program: r.program(programs)?,
        window: r.byte()?,
        x: r.near()?,
        y: r.near()?,
    };
    Ok((event, r.end()))
}

fn read_raise(mut r: Reader<'_>, programs: u8) -> Result<(Event, usize), Fault>
    ensures { ReadEvent Kind.Raise programs r.entry result }
{
    let event = Event::Raise {
        program: r.program(programs)?,
        window: r.byte()?,
    };
    Ok((event, r.end()))
}

fn read_show(mut r: Reader<'_>, programs: u8) -> Result<(Event, usize), Fault>
    ensures { ReadEvent Kind.Show programs r.entry result }
{
    let event = Event::Show {
        program: r.program(programs)?,
        window: r.byte()?,
        on: r.mark()?,
    };
    Ok((event, r.end()))
}

fn read_fill(mut r: Reader<'_>, programs: u8) -> Result<(Event, usize), Fault>
    ensures { ReadEvent Kind.Fill programs r.entry result }
{
    let event = Event::Fill {
        program: r.program(programs)?,
        window: r.byte()?,
        patch: r.patch()?,
        colour: r.four()?,
    };
    Ok((event, r.end()))
}

fn read_put(mut r: Reader<'_>, programs: u8) -> Result<(Event, usize), Fault>
    ensures { ReadEvent Kind.Put programs r.entry result }
{
    let event = Event::Put {
        program: r.program(programs)?,
        window: r.byte()?,
        x: r.two()?,
        y: r.two()?,
        colours: r.row(4)?,
    };
    Ok((event, r.end()))
}

fn read_copy(mut r: Reader<'_>, programs: u8) -> Result<(Event, usize), Fault>
    ensures { ReadEvent Kind.Copy programs r.entry result }
{
    let event = Event::Copy {
        program: r.program(programs)?,
        window: r.byte()?,
        patch: r.patch()?,
        to_x: r.two()?,
        to_y: r.two()?,
    };
    Ok((event, r.end()))
}

fn read_offer(mut r: Reader<'_>, programs: u8) -> Result<(Event, usize), Fault>
    ensures { ReadEvent Kind.Offer programs r.entry result }
{
    let event = Event::Offer {
        program: r.program(programs)?,
        bytes: r.row(1)?,
    };
    Ok((event, r.end()))
}

fn read_point(mut r: Reader<'_>) -> Result<(Event, usize), Fault>
    ensures { (p : ℕ) → ReadEvent Kind.Point p r.entry result }
{
    let x = r.near()?;
    let y = r.near()?;
    Ok((Event::Point { x, y }, r.end()))
}

fn read_press(mut r: Reader<'_>) -> Result<(Event, usize), Fault>
    ensures { (p : ℕ) → ReadEvent Kind.Press p r.entry result }
{
    let down = r.mark()?;
    Ok((Event::Press { down }, r.end()))
}

fn read_key(mut r: Reader<'_>) -> Result<(Event, usize), Fault>
    ensures { (p : ℕ) → ReadEvent Kind.Key p r.entry result }
{
    let key = r.four()?;
    Ok((Event::Key { key }, r.end()))
}

// What follows the byte of its kind.
pub fn read_kind(kind: Kind, r: Reader<'_>, programs: u8) -> Result<(Event, usize), Fault>
    ensures { ReadEvent kind programs r.entry result }
{
    match kind {
        Kind::Make => read_make(r, programs),
        Kind::Close => read_close(r, programs),
        Kind::Move => read_move(r, programs),
        Kind::Raise => read_raise(r, programs),
        Kind::Show => read_show(r, programs),
        Kind::Fill => read_fill(r, programs),
        Kind::Put => read_put(r, programs),
        Kind::Copy => read_copy(r, programs),
        Kind::Offer => read_offer(r, programs),
        Kind::Point => read_point(r),
        Kind::Press => read_press(r),
        Kind::Key => read_key(r),
        Kind::Paste => Ok((Event::Paste, r.end())),
    }
}
