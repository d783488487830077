// Text to bytes: a line an event.
ghost use Rattle.std.specs.Prelude.{◌≡◌, List, length, IfOk, MatchResult};
ghost use Rattle.std.specs.Option.{option_map};
ghost use Rattle.model.specs.Desk.{Event};
ghost use Rattle.script.specs.Putting.{Puts, Blames};
ghost use Rattle.script.specs.Sentences.{texts};
ghost use Rattle.script.specs.Texts.{code_of, Words, sentence, encode_all, all_events, PutsLine, TextSays, WrongAt};

use crate::events::put_event;
use crate::kinds::Kind;
use crate::problem::Problem;
use std::alloc::{AllocError, Global};
use std::fmt;

// The line that is refused, counted from 1, and why.
#[derive(Clone, Copy)]
pub struct Refusal<'a> {
    pub line: usize,
    pub problem: Problem<'a>,
}

impl<'a> fmt::Display for Refusal<'a> {
    fn fmt<W: fmt::Write>(&self, f: &mut fmt::Formatter<W>) -> fmt::Result {
        write!(f, "line {}: {}", self.line, self.problem)
    }
}

// A line without its comment.
pub fn code<'a>(line: &'a str) -> &'a str
    ensures { result.now ≡ code_of line.now }
{
    line.split_once('#').map_or(line, |(code, _)| code)
}

// The words of a text.
pub fn words<'a>(heap: Global, text: &'a str) -> Result<Vec<&'a str>, AllocError>
    ensures { IfOk result (λ v. Words text.now (texts v.items)) }
{
    text.split_whitespace().collect(heap)
}

// Adds the bytes of the event that the words of a line say, if there are any.
pub fn put_words<'a>(words: &[&'a str], out: &mut Vec<u8>) -> Result<(), Problem<'a>>
    ensures { Puts (option_map encode_all (sentence (texts words.now))) out.old.items out.new.items result }
{
    let Some((word, fields)) = words.split_first() else {
        return Ok(());
    };
    let kind = Kind::named(word).ok_or(Problem::Unknown { word })?;
    put_event(kind, fields, out)
}

// The same for a line with its comment.
pub fn put_line<'a>(heap: Global, line: &'a str, out: &mut Vec<u8>) -> Result<(), Problem<'a>>
    ensures { PutsLine line.now out.old.items out.new.items result }
{
    let found = words(heap, code(line))?;
    put_words(&found, out)
}

// The bytes of the events that a text says, or the first line that is wrong.
pub fn convert<'a>(heap: Global, text: &'a str) -> Result<Vec<u8>, Refusal<'a>>
    ensures { MatchResult result (λ v. (ess : List (List Event)) × TextSays text.now ess × (v.items ≡ encode_all (all_events ess))) (λ e. Blames e.problem (WrongAt text.now e.line)) }
{
    let mut out = Vec::new(heap);
    for (line, text) in (1..).zip(text.lines()) {
        put_line(heap, text, &mut out).map_err(|problem| Refusal { line, problem })?;
    }
    Ok(out)
}
