// One event on the state and all that is lent.
ghost use Rattle.std.specs.Prelude.{◌≡◌, ℕ, ◌+◌, ◌≤◌, true, List, length};
ghost use Rattle.protocol.specs.Added.{Added};
ghost use Rattle.protocol.specs.Fields.{Bytes};
ghost use Rattle.protocol.specs.Laws.{CarriedWord};
ghost use Rattle.protocol.specs.Meaning.{meaning, had, word_meaning};
ghost use Rattle.layout.specs.Budget.{sent_room, words_room};
ghost use Rattle.layout.specs.Sizes.{sizes_of};
ghost use Rattle.layout.specs.State.{Good};
ghost use Rattle.desktop.specs.Does.{told_of, told_had};
ghost use Rattle.server.specs.Told.{told_bytes, AllCarried};
ghost use Rattle.server.specs.Step.{grants, granted_by, Stepped};

use crate::outcome::Outcome;
use damage::send::send;
use desktop::carry::carry_out;
use desktop::told::Told;
use layout::sizes::{Refusal, Sizes};
use layout::state::State;
use protocol::{Event, Word};

// How much of sent and of words is written.
#[derive(Clone, Copy)]
pub struct Written {
    pub sent: usize,
    pub words: usize,
}

impl Written {
    // What a call came to with so much written.
    pub fn outcome(self, events: usize, read: usize, refusal: Option<Refusal>) -> Outcome
        ensures { result ≡ record { events = events; read = read; sent = self.sent; words = self.words; refusal = refusal } }
    {
        Outcome {
            events,
            read,
            sent: self.sent,
            words: self.words,
            refusal,
        }
    }
}

// Whether a word is another than no. Whatever it is, it fits its bytes, which is seen kind by kind: `matches!` would prove the value alone.
fn is_grant(word: Word) -> bool
    ensures value { result ≡ grants word }
    ensures fits { (bs : List ℕ) → Bytes bs → CarriedWord (word_meaning bs word) }
{
    match word {
        Word::No => false,
        Word::Done => true,
        Word::Made { .. } => true,
        Word::At { .. } => true,
        Word::Pressed { .. } => true,
        Word::Typed { .. } => true,
        Word::Pasted { .. } => true,
    }
}

// Whether an event was taken, by what is told.
fn granted(told: Option<Told>) -> bool
    ensures value { result ≡ granted_by told }
    ensures fits { (bs : List ℕ) → Bytes bs → AllCarried (told_of bs told) }
{
    match told {
        Some(t) => is_grant(t.word),
        None => true,
    }
}

// Writes what is told, whose bytes lie in the source, from the byte `at` on; answers where it ends. (That the source has bytes is known of a slice, and
// not of an array in a struct.)
fn tell(told: Option<Told>, source: &[u8], words: &mut [u8], at: usize) -> usize
    requires had { told_had source.now told ≡ true }
    requires room { at + length (told_bytes (told_of source.now told)) ≤ length words.old }
    ensures added { Added at result (told_bytes (told_of source.now told)) words.old words.new }
    ensures bytes { Bytes source.now }
{
    let Some(t) = told else {
        return at;
    };
    match protocol::write_word(t.program, t.word, source, words, at) {
        Some(n) => at + n,
        None => at,
    }
}

// Carries an event out, and writes what it sends and tells behind what is written. (The slices stay apart, as they are lent.)
pub fn step(
    z: Sizes,
    s: &mut State,
    pictures: &mut [u32],
    call: &[u8],
    e: Event,
    sent: &mut [u32],
    words: &mut [u8],
    from: Written,
) -> Written
    requires good { Good (sizes_of z) s.old (length pictures.old) }
    requires had { had call.now e ≡ true }
    requires sent { from.sent + sent_room (sizes_of z) ≤ length sent.old }
    requires words { from.words + words_room ≤ length words.old }
    ensures { Stepped (sizes_of z) (meaning call.now e) s.old pictures.old sent.old words.old from s.new pictures.new sent.new words.new result }
{
    let before = *s;
    let told = carry_out(z, s, pictures, call, e);
    let words_end = tell(told, before.clip.bytes.as_slice(), words, from.words);
    let taken = granted(told);
    let sent_end = send(z, e, taken, &before, s, pictures, sent, from.sent);
    Written {
        sent: sent_end,
        words: words_end,
    }
}
