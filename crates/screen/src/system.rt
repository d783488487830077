// The system: what the server is lent, and a screen that changes only by the boxes that each call sends.
use anyhow::Context;
use damage::apply::{Applied, apply};
use layout::budget::Budget;
use layout::sizes::Sizes;

// All memory is from the allocator. Sent and words have room for one event.
#[derive(Drop)]
pub struct System {
    wide: u16,
    high: u16,
    pictures: Vec<u32>,
    work: Vec<u32>,
    sent: Vec<u32>,
    words: Vec<u8>,
    screen: Vec<u32>,
}

// What an event came to: how many bytes of words it told, and what it sent.
#[derive(Clone, Copy)]
pub struct Done {
    pub words: usize,
    pub sent: Applied,
}

impl System {
    // An empty desk of these sizes, which have this budget, and a screen that is all 0.
    pub fn new(rt: &HostRuntime, z: Sizes, budget: Budget) -> anyhow::Result<System> {
        let wide = z.wide.min(4096) as u16;
        let high = z.high.min(4096) as u16;
        let mut pictures = vec![in rt.alloc(); 0u32; budget.pictures]?;
        let mut work = vec![in rt.alloc(); 0u32; budget.work]?;
        server::start(z, pictures.as_mut_slice(), work.as_mut_slice())
            .ok()
            .context("the desk did not start")?;
        let dots = usize::from(wide) * usize::from(high);
        Ok(System {
            wide,
            high,
            pictures,
            work,
            sent: vec![in rt.alloc(); 0u32; budget.sent]?,
            words: vec![in rt.alloc(); 0u8; budget.words]?,
            screen: vec![in rt.alloc(); 0u32; dots]?,
        })
    }

    // Carries out one event, and puts what it sent onto the screen.
    pub fn event(&mut self, call: &[u8]) -> anyhow::Result<Done> {
        let outcome = server::event(
            call,
            self.pictures.as_mut_slice(),
            self.work.as_mut_slice(),
            self.sent.as_mut_slice(),
            self.words.as_mut_slice(),
        );
        let boxes = self.sent.as_slice().get(..outcome.sent);
        let boxes = boxes.context("more was sent than there is room for")?;
        let sent = apply(self.screen.as_mut_slice(), self.wide, self.high, boxes);
        Ok(Done {
            words: outcome.words,
            sent: sent.context("what was sent is no row of boxes")?,
        })
    }

    // The words that an event told.
    pub fn words(&self, done: Done) -> anyhow::Result<&[u8]> {
        let words = self.words.as_slice().get(..done.words);
        words.context("more was told than there is room for")
    }

    // The screen by rows, each dot in hexadecimal.
    pub fn show(&self, rt: &HostRuntime) -> anyhow::Result<()> {
        for row in self.screen.as_slice().chunks(usize::from(self.wide.max(1))) {
            for (i, dot) in row.iter().enumerate() {
                let gap = if i == 0 { "" } else { " " };
                print!(rt; "{gap}{dot:08x}")?;
            }
            println!(rt; "")?;
        }
        Ok(())
    }
}
