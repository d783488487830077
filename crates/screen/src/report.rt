// What is printed of a row of events.
use crate::asks::What;
use crate::system::{Done, System};
use anyhow::Context;
use lines::Line;
use server::mailbox::{next, take};
use std::fmt;

// How much was carried out, told and sent.
#[derive(Clone, Copy)]
struct Counts {
    events: usize,
    words: usize,
    boxes: usize,
    dots: usize,
}

impl fmt::Display for Counts {
    fn fmt<W: fmt::Write>(&self, f: &mut fmt::Formatter<W>) -> fmt::Result {
        write!(
            f,
            "events {} words {} boxes {} dots {}",
            self.events, self.words, self.boxes, self.dots
        )
    }
}

// The row is for one program's own words.
#[derive(Drop)]
pub struct Report {
    what: What,
    counts: Counts,
    row: Vec<u8>,
}

// A line for each word of a row that has the words of all.
fn tell_all(rt: &HostRuntime, source: &[u8]) -> anyhow::Result<()> {
    let mut at = 0;
    // a word says where the next begins
    while at < source.len() {
        let read = protocol::read_word(source, at);
        let ((program, word), end) = read.ok().context("what was told is no row of words")?;
        rt.println(Line {
            program,
            word,
            source,
        })?;
        at = end;
    }
    Ok(())
}

// A line for each word of a program's own row.
fn tell_own(rt: &HostRuntime, program: u8, source: &[u8]) -> anyhow::Result<()> {
    let mut at = 0;
    // as above
    while let Some((word, end)) = next(source, at)
        .ok()
        .context("what was told is no row of words")?
    {
        rt.println(Line {
            program,
            word,
            source,
        })?;
        at = end;
    }
    Ok(())
}

// How many words a row has.
fn count(words: &[u8]) -> anyhow::Result<usize> {
    let mut count: usize = 0;
    let mut at = 0;
    // as above
    while let Some((_, end)) = next(words, at)
        .ok()
        .context("what was told is no row of words")?
    {
        count = count.saturating_add(1);
        at = end;
    }
    Ok(count)
}

impl Report {
    pub fn new(rt: &HostRuntime, what: What, words: usize) -> anyhow::Result<Report> {
        Ok(Report {
            what,
            counts: Counts {
                events: 0,
                words: 0,
                boxes: 0,
                dots: 0,
            },
            row: vec![in rt.alloc(); 0u8; words]?,
        })
    }

    // What is printed after an event.
    pub fn event(&mut self, rt: &HostRuntime, system: &System, done: Done) -> anyhow::Result<()> {
        let words = system.words(done)?;
        match self.what {
            What::All => {
                tell_all(rt, words)?;
                system.show(rt)
            }
            What::Counts => self.add(words, done),
            What::Program(program) => self.tell(rt, program, words),
        }
    }

    fn add(&mut self, words: &[u8], done: Done) -> anyhow::Result<()> {
        let told = count(words)?;
        let counts = &mut self.counts;
        counts.events = counts.events.saturating_add(1);
        counts.words = counts.words.saturating_add(told);
        counts.boxes = counts.boxes.saturating_add(done.sent.boxes);
        counts.dots = counts.dots.saturating_add(done.sent.dots);
        Ok(())
    }

    fn tell(&mut self, rt: &HostRuntime, program: u8, words: &[u8]) -> anyhow::Result<()> {
        let taken = take(words, program, self.row.as_mut_slice());
        let size = taken.ok().context("a program's words can't be taken")?;
        let own = self.row.as_slice().get(..size);
        tell_own(rt, program, own.context("a program's words have no room")?)
    }

    // What is printed at the end.
    pub fn end(&self, rt: &HostRuntime) -> anyhow::Result<()> {
        if let What::Counts = self.what {
            let counts = self.counts;
            println!(rt; "{counts}")?;
        }
        Ok(())
    }
}
