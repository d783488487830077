// What lent memory has to have, and what is refused for want of it.
ghost use Rattle.std.specs.Prelude.{◌≡◌, ◌+◌, ◌*◌, ◌≤◌};
ghost use Rattle.layout.specs.Sizes.{sizes_of};
ghost use Rattle.layout.specs.Refusals.{numbered, refused, slice_number};
ghost use Rattle.layout.specs.Budget.{Budgeted, short, start_refusal, event_refusal};

use crate::sizes::{Refusal, Sizes, Slice};

// What the lent slices have to have: elements of pictures and of work, and for each event of a call elements of sent and of words.
#[derive(Clone, Copy)]
pub struct Budget {
    pub pictures: usize,
    pub work: usize,
    pub sent: usize,
    pub words: usize,
}

// How many elements the lent slices of a call have. (The same fields as a budget, and a type of its own: what is lent can't be given for what is needed.)
#[derive(Clone, Copy)]
pub struct Lent {
    pub pictures: usize,
    pub work: usize,
    pub sent: usize,
    pub words: usize,
}

// How much of sent and of words is set apart for the events of the call so far. (Not what is written of them, which is less: that is a type of server.)
#[derive(Clone, Copy)]
pub struct Used {
    pub sent: usize,
    pub words: usize,
}

// How many boxes a window's slot in the work has.
fn boxes_for(windows: u32) -> usize
    requires { windows ≤ 255 }
    ensures value { result ≡ (2 * windows + 6) * (2 * windows + 6) }
    ensures small { result ≤ 266256 }
{
    let lines = 2 * windows as usize + 6;
    lines * lines
}

// A product of two numbers that are small.
fn times_small(a: usize, b: usize) -> usize
    requires first { a ≤ 4096 }
    requires second { b ≤ 1048576 }
    ensures value { result ≡ a * b }
    ensures small { result ≤ 4294967296 }
{
    a * b
}

// A lent slice has the elements that it needs, or is too short.
fn room(slice: Slice, needs: usize, has: usize) -> Result<(), Refusal>
    ensures { refused result ≡ short (slice_number slice) needs has }
{
    if needs <= has {
        Ok(())
    } else {
        Err(Refusal::Short(slice))
    }
}

// It has so many more than are set apart.
fn room_behind(slice: Slice, used: usize, more: usize, has: usize) -> Result<(), Refusal>
    ensures { refused result ≡ short (slice_number slice) (used + more) has }
{
    let left = has.checked_sub(used).ok_or(Refusal::Short(slice))?;
    room(slice, more, left)
}

impl Sizes {
    // What lent memory these sizes want, or the first size that is out of its range.
    pub fn budget(&self) -> Result<Budget, Refusal>
        ensures { Budgeted (sizes_of self.now) result }
    {
        self.in_range()?;
        let boxes = boxes_for(self.windows);
        Ok(Budget {
            pictures: self.dots as usize,
            work: 2048 + times_small(self.windows as usize, 2 * boxes),
            sent: times_small(self.wide as usize, self.high as usize) + 4 * boxes,
            words: 8192,
        })
    }

    // Sizes and lent memory for a start.
    #[tactic(auto, unfolding(crate::specs::Budget::start_refusal))]
    fn start_room(&self, pictures: usize, work: usize) -> Result<(), Refusal>
        ensures { refused result ≡ start_refusal (sizes_of self.now) pictures work }
    {
        let budget = self.budget()?;
        room(Slice::Pictures, budget.pictures, pictures)?;
        room(Slice::Work, budget.work, work)
    }

    // Why there is no start with these sizes and so many elements of pictures and of work.
    pub fn start_refusal(&self, pictures: usize, work: usize) -> Option<Refusal>
        ensures { numbered result ≡ start_refusal (sizes_of self.now) pictures work }
    {
        self.start_room(pictures, work).err()
    }

    // Sizes and lent memory for one event more.
    #[tactic(auto, unfolding(crate::specs::Budget::start_refusal, crate::specs::Budget::event_refusal))]
    fn event_room(&self, lent: Lent, used: Used) -> Result<(), Refusal>
        ensures { refused result ≡ event_refusal (sizes_of self.now) lent used }
    {
        let budget = self.budget()?;
        room(Slice::Pictures, budget.pictures, lent.pictures)?;
        room(Slice::Work, budget.work, lent.work)?;
        room_behind(Slice::Sent, used.sent, budget.sent, lent.sent)?;
        room_behind(Slice::Words, used.words, budget.words, lent.words)
    }

    // Why the next event of a call is refused before it is read.
    pub fn event_refusal(&self, lent: Lent, used: Used) -> Option<Refusal>
        ensures { numbered result ≡ event_refusal (sizes_of self.now) lent used }
    {
        self.event_room(lent, used).err()
    }
}
