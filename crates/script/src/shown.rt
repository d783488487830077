// Bytes to text: an event a line.
ghost use Rattle.std.specs.Prelude.{◌≡◌, ◌+◌, List, [], length, take, drop, IfOk, nat_le};
ghost use Rattle.std.specs.Option.{option_map};
ghost use Rattle.model.specs.Basics.{pick};
ghost use Rattle.model.specs.Desk as desk;
ghost use Rattle.script.specs.Rows.{Reads};

use protocol::{Event, Fault, Kinds, Patch, read};
use std::alloc::{AllocError, Global};
use std::fmt;

// An event with the bytes that its parts point into, as a line of text.
#[derive(Clone, Copy)]
pub struct Shown<'a> {
    pub event: Event,
    pub source: &'a [u8],
}

// So many bytes from a place on, or none if they do not lie in the source.
fn cut<'a>(source: &'a [u8], from: usize, size: usize) -> &'a [u8]
    ensures { result.now ≡ pick (nat_le (from + size) (length source.now)) (take size (drop from source.now)) [] }
{
    source
        .get(from..)
        .and_then(|behind| behind.get(..size))
        .unwrap_or(&[])
}

impl<'a> fmt::Display for Shown<'a> {
    fn fmt<W: fmt::Write>(&self, f: &mut fmt::Formatter<W>) -> fmt::Result {
        match self.event {
            Event::Make {
                program,
                x,
                y,
                wide,
                high,
            } => write!(f, "make {program} {x} {y} {wide} {high}"),
            Event::Close { program, window } => write!(f, "close {program} {window}"),
            Event::Move {
                program,
                window,
                x,
                y,
            } => write!(f, "move {program} {window} {x} {y}"),
            Event::Raise { program, window } => write!(f, "raise {program} {window}"),
            Event::Show {
                program,
                window,
                on,
            } => write!(f, "show {program} {window} {}", on as u8),
            Event::Fill {
                program,
                window,
                patch: Patch { x, y, wide, high },
                colour,
            } => write!(f, "fill {program} {window} {x} {y} {wide} {high} {colour}"),
            Event::Put {
                program,
                window,
                x,
                y,
                colours,
            } => {
                write!(f, "put {program} {window} {x} {y}")?;
                show_colours(
                    cut(self.source, colours.from, 4 * colours.count as usize),
                    f,
                )
            }
            Event::Copy {
                program,
                window,
                patch: Patch { x, y, wide, high },
                to_x,
                to_y,
            } => write!(
                f,
                "copy {program} {window} {x} {y} {wide} {high} {to_x} {to_y}"
            ),
            Event::Offer { program, bytes } => {
                write!(f, "offer {program}")?;
                show_bytes(cut(self.source, bytes.from, bytes.count as usize), f)
            }
            Event::Point { x, y } => write!(f, "point {x} {y}"),
            Event::Press { down } => write!(f, "press {}", down as u8),
            Event::Key { key } => write!(f, "key {key}"),
            Event::Paste => write!(f, "paste"),
        }
    }
}

fn show_colours<W: fmt::Write>(row: &[u8], f: &mut fmt::Formatter<W>) -> fmt::Result {
    let (colours, _) = row.as_chunks();
    for colour in colours {
        write!(f, " {}", u32::from_le_bytes(*colour))?;
    }
    Ok(())
}

fn show_bytes<W: fmt::Write>(row: &[u8], f: &mut fmt::Formatter<W>) -> fmt::Result {
    for byte in row {
        write!(f, " {byte}")?;
    }
    Ok(())
}

// A text, and where the bytes that it is of are in fault, if they are.
#[derive(Drop)]
pub struct Description {
    pub text: String,
    pub fault: Option<Fault>,
}

// As many programs as there can be.
const PROGRAMS: u8 = 255;

// The events of a row of bytes, a line each, up to the first fault.
pub fn describe(heap: Global, bytes: &[u8]) -> Result<Description, AllocError>
    ensures { IfOk result (λ d. (es : List desk.Event) × Reads bytes.now 0 es (option_map (λ f. f.place) d.fault)) }
{
    let mut text = String::new(heap);
    let mut at = 0;
    // `at` goes from the end of one event to that of the next, which only reading it tells
    while at < bytes.len() {
        match read(bytes, at, PROGRAMS, Kinds::all()) {
            Ok((event, end)) => {
                let shown = Shown {
                    event,
                    source: bytes,
                };
                writeln!(text, "{shown}")?;
                at = end;
            }
            Err(fault) => return Ok(Description {
                text,
                fault: Some(fault),
            }),
        }
    }
    Ok(Description { text, fault: None })
}
