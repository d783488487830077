// A desk that `server` carries out on lent memory, and a screen that knows of it only by the boxes that are sent.
use damage::apply::apply;
use layout::sizes::Sizes;
use server::{Outcome, event, start};
use std::alloc::Global;
use std::test::Fail;

#[derive(Drop)]
pub struct Served {
    sizes: Sizes,
    pictures: Vec<u32>,
    work: Vec<u32>,
    sent: Vec<u32>,
    words: Vec<u8>,
    screen: Vec<u32>,
}

impl Served {
    // An empty desk in memory that is just long enough for calls of so many events; nothing that lies in it before is 0 but the screen.
    pub(super) fn start(heap: Global, sizes: Sizes, events: usize) -> Result<Served, Fail> {
        let Ok(needs) = sizes.budget() else {
            return Err(Fail::new("a size out of its range"));
        };
        let mut pictures = vec![in heap; 7u32; needs.pictures]?;
        let mut work = vec![in heap; 7u32; needs.work]?;
        let sent = vec![in heap; 7u32; needs.sent.saturating_mul(events)]?;
        let words = vec![in heap; 7u8; needs.words.saturating_mul(events)]?;
        let dots = (sizes.wide as usize).saturating_mul(sizes.high as usize);
        let screen = vec![in heap; 0u32; dots]?;
        if start(sizes, pictures.as_mut_slice(), work.as_mut_slice()).is_err() {
            return Err(Fail::new("no start"));
        }
        Ok(Served {
            sizes,
            pictures,
            work,
            sent,
            words,
            screen,
        })
    }

    // Carries a call out, and puts what it sends onto the screen.
    pub(super) fn call(&mut self, call: &[u8]) -> Result<Outcome, Fail> {
        let out = event(
            call,
            self.pictures.as_mut_slice(),
            self.work.as_mut_slice(),
            self.sent.as_mut_slice(),
            self.words.as_mut_slice(),
        );
        let Some(sent) = self.sent.as_slice().get(..out.sent) else {
            return Err(Fail::new("more is sent than there is"));
        };
        let wide = self.sizes.wide.min(4096) as u16;
        let high = self.sizes.high.min(4096) as u16;
        match apply(self.screen.as_mut_slice(), wide, high, sent) {
            Some(_) => Ok(out),
            None => Err(Fail::new("what is sent is no row of boxes")),
        }
    }

    // What a call told.
    pub(super) fn told(&self, out: Outcome) -> &[u8] {
        self.words.as_slice().get(..out.words).unwrap_or(&[])
    }

    // The screen by rows.
    pub(super) fn screen(&self) -> &[u32] {
        self.screen.as_slice()
    }
}
