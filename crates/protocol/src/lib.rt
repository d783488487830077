// Events and words in bytes: readers, writers, and what ties them.
#![tactic(auto)]

ghost use Rattle.std.specs.Prelude.{◌≡◌, true, false, ◌&&◌, length, Some, None, replicate, nat_le, nat_lt, slice_index};
ghost use Rattle.protocol.specs.Added.{Wrote};
ghost use Rattle.protocol.specs.Formats.{read_event, read_told, encode, encode_word};
ghost use Rattle.protocol.specs.Meaning.{Ends, Had, said, told_said, built_of, meaning, word_meaning, had, word_had, part, lies};

mod events;
mod fields;
mod kinds;
mod laws;
mod line;
mod reader;
mod tell;
mod told;
mod types;
mod write;

use kinds::{Kind, WordKind};
pub use laws::{events_stand, fits_stand, words_stand};
use reader::Reader;
pub use types::{Event, Fault, Kinds, Part, Patch, Word};

impl Kinds {
    // All thirteen are built.
    pub fn all() -> Kinds
        ensures each { result.built ≡ replicate 13 true }
        ensures value { built_of result ≡ (λ kind. nat_le kind 12) }
    {
        Kinds { built: [true; 13] }
    }

    // Whether there is such a kind, and it is built. (A number, as a byte of a call may be: it need not name a kind.)
    pub fn has(self, kind: u8) -> bool
        ensures { result ≡ (nat_lt kind 13 && built_of self kind) }
    {
        kind < 13 && self.built[kind as usize]
    }
}

// The event at the byte `at` of a call and where it ends, or the first byte in fault.
pub fn read(call: &[u8], at: usize, programs: u8, kinds: Kinds) -> Result<(Event, usize), Fault>
    ensures value { said call.now result ≡ read_event (built_of kinds) programs call.now at }
    ensures ends { Ends call.now at result }
    ensures had { Had call.now result }
{
    let r = Reader::begin(call, at, 1)?;
    match Kind::of(call[at]) {
        Some(kind) if kinds.has(call[at]) => events::read_kind(kind, r, programs),
        _ => Err(Fault { place: at }),
    }
}

// The word at the byte `at` of a row, with the program that is told it, and where it ends; or the first byte in fault.
pub fn read_word(words: &[u8], at: usize) -> Result<((u8, Word), usize), Fault>
    ensures value { told_said words.now result ≡ read_told words.now at }
    ensures ends { Ends words.now at result }
{
    let r = Reader::begin(words, at, 2)?;
    let Some(kind) = WordKind::of(words[at + 1]) else {
        return Err(Fault { place: at + 1 });
    };
    let (word, end) = told::read_word_kind(kind, r)?;
    Ok(((words[at], word), end))
}

// The colour `i` of a row of colours that lies in the source, or none if it has not so many.
pub fn colour_at(source: &[u8], row: Part, i: u16) -> Option<u32>
    ensures { elim result [
      | None ↦ (lies 4 source.now row && nat_lt i row.count) ≡ false
      | Some q ↦ ((lies 4 source.now row && nat_lt i row.count) ≡ true) × (q ≡ slice_index (part 4 source.now row) i)
    ] }
{
    if i >= row.count || !row.lies_in(4, source.len()) {
        return None;
    }
    Some(fields::four_at(source, row.from + 4 * i as usize))
}

// Writes an event, whose parts point into the source, from the byte `at` on: how many bytes it has.
// Where there is no room for it, or a part does not lie in the source, nothing is changed.
pub fn write_event(e: Event, source: &[u8], out: &mut [u8], at: usize) -> Option<usize>
    ensures { Wrote (had source.now e) at (encode (meaning source.now e)) out.old out.new result }
{
    match e {
        Event::Make {
            program,
            x,
            y,
            wide,
            high,
        } => write::write_make(out, at, program, x, y, wide, high),
        Event::Close { program, window } => write::write_close(out, at, program, window),
        Event::Move {
            program,
            window,
            x,
            y,
        } => write::write_move(out, at, program, window, x, y),
        Event::Raise { program, window } => write::write_raise(out, at, program, window),
        Event::Show {
            program,
            window,
            on,
        } => write::write_show(out, at, program, window, on),
        Event::Fill {
            program,
            window,
            patch,
            colour,
        } => write::write_fill(out, at, program, window, patch, colour),
        Event::Put {
            program,
            window,
            x,
            y,
            colours,
        } => write::write_put(out, at, source, program, window, x, y, colours),
        Event::Copy {
            program,
            window,
            patch,
            to_x,
            to_y,
        } => write::write_copy(out, at, program, window, patch, to_x, to_y),
        Event::Offer { program, bytes } => write::write_offer(out, at, source, program, bytes),
        Event::Point { x, y } => write::write_point(out, at, x, y),
        Event::Press { down } => write::write_press(out, at, down),
        Event::Key { key } => write::write_key(out, at, key),
        Event::Paste => write::write_paste(out, at),
    }
}

// Writes a word to a program, whose part points into the source, in the same way.
pub fn write_word(program: u8, w: Word, source: &[u8], out: &mut [u8], at: usize) -> Option<usize>
    ensures { Wrote (word_had source.now w) at (encode_word program (word_meaning source.now w)) out.old out.new result }
{
    match w {
        Word::No => tell::write_no(out, at, program),
        Word::Done => tell::write_done(out, at, program),
        Word::Made { window } => tell::write_made(out, at, program, window),
        Word::At { window, x, y } => tell::write_at(out, at, program, window, x, y),
        Word::Pressed { window, down } => tell::write_pressed(out, at, program, window, down),
        Word::Typed { window, key } => tell::write_typed(out, at, program, window, key),
        Word::Pasted { window, bytes } => tell::write_pasted(
            out, at, program, source, window, bytes,
        ),
    }
}
