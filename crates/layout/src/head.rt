// The head of the lent work, and where its parts begin. What they hold is in specs/Head.antt; the six sizes are its first words.
ghost use Rattle.std.specs.Prelude.{◌≡◌, ◌≤◌, length};
ghost use Rattle.layout.specs.Sizes.{sizes_of};
ghost use Rattle.layout.specs.Head.{head_end, sizes_in};

use crate::sizes::Sizes;

// the pointer's place
pub(crate) const POINTER: usize = 6;

// the windows that have the keys and the pointer
pub(crate) const HANDS: usize = 7;

// the clipboard's length and owner
pub(crate) const CLIP: usize = 8;

// how many windows stand in the order
pub(crate) const COUNT: usize = 9;

// the order, as bytes
pub(crate) const ORDER: usize = 10;

// the clipboard's bytes
pub(crate) const CLIP_BYTES: usize = 74;

// three words for each window
pub(crate) const TABLE: usize = 1098;

// where the head ends
pub(crate) const END: usize = 2048;

// A lent work that is long enough to have a head. (Its readers take a &Head: a clause then says head.now, not head.entry.)
#[derive(Clone, Copy)]
pub(crate) struct Head<'a> {
    pub(crate) work: &'a [u32],
    ghost long: { head_end ≤ length work.now },
}

impl<'a> Head<'a> {
    ghost use Rattle.layout.specs.Loads.{Headed};

    // The head of a work, where there is one.
    pub(crate) fn of(work: &'a [u32]) -> Option<Head<'a>>
        ensures { Headed work.now result }
    {
        if work.len() < END {
            return None;
        }
        Some(Head { work })
    }

    // The sizes that it holds.
    #[tactic(auto, unfolding(crate::specs::Head::sizes_in))]
    pub(crate) fn sizes(&self) -> Sizes
        ensures { sizes_of result ≡ sizes_in self.now.work.now }
    {
        Sizes {
            wide: self.work[0],
            high: self.work[1],
            windows: self.work[2],
            programs: self.work[3],
            side: self.work[4],
            dots: self.work[5],
        }
    }
}
