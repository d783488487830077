// Which dots an event damages.
ghost use Rattle.std.specs.Prelude.{◌≡◌, ℕ, ◌+◌, ◌<◌, true, false, ◌&&◌, List, pos, ◌+ℤ◌, Some, None};
ghost use Rattle.model.specs.Desk.{window as window_of};
ghost use Rattle.model.specs.System.{front_at, turned, same_place};
ghost use Rattle.model.specs.System.{taken as taken_of};
ghost use Rattle.protocol.specs.Meaning.{meaning};
ghost use Rattle.stack.specs.View.{view, numbered};
ghost use Rattle.layout.specs.Sizes.{sizes_of};
ghost use Rattle.layout.specs.State.{desk_of};
ghost use Rattle.damage.specs.Cells.{Fronting};
ghost use Rattle.damage.specs.Hurts.{in_side, in_placed, Placing, hurts, Decides};

use crate::types::{Dot, How, Hurt, Placed, Side};
use layout::sizes::Sizes;
use layout::state::State;
use protocol::{Event, Patch};
use stack::state::Window;

impl Dot {
    // The number of the window in front, where there is one.
    fn front(self, s: &State) -> Option<u8>
        ensures { (p : List ℕ) → numbered result ≡ front_at (desk_of s.now p) self.i self.j }
    {
        s.stack.front_at(self.i as i16, self.j as i16)
    }

    // That window.
    pub(crate) fn front_window(self, s: &State) -> Option<Window>
        ensures { Fronting s.now self.i self.j result }
    {
        s.stack
            .front_window(self.i as i16, self.j as i16)
            .map(|(_, w)| w)
    }

    // Whether another window is in front than before.
    fn turned(self, before: &State, after: &State) -> bool
        ensures { (p q : List ℕ) → result ≡ turned (desk_of before.now p) (desk_of after.now q) self.i self.j }
    {
        self.front(before) != self.front(after)
    }
}

impl Side {
    // `len` places on from the place `from` + `skip`.
    pub(crate) fn of(from: i16, skip: u16, len: u16) -> Side
        ensures from { result.from ≡ from +ℤ pos skip }
        ensures to { result.to ≡ from +ℤ pos (skip + len) }
    {
        let first = i32::from(from) + i32::from(skip);
        Side {
            from: first,
            to: first + i32::from(len),
        }
    }

    // Whether a place of the screen lies in it.
    fn contains(self, i: u16) -> bool
        ensures { result ≡ in_side self i }
    {
        (self.from..self.to).contains(&i32::from(i))
    }
}

impl Placed {
    // Whether a dot of the screen lies in it.
    fn contains(self, dot: Dot) -> bool
        ensures { result ≡ in_placed self dot.i dot.j }
    {
        self.across.contains(dot.i) && self.down.contains(dot.j)
    }
}

// Where a window lies; none lies at 0, 0.
fn corner(slot: Option<Window>) -> (i16, i16)
    ensures across { (p : List ℕ) → result.0 ≡ (view p slot).x }
    ensures down { (p : List ℕ) → result.1 ≡ (view p slot).y }
{
    slot.map_or((0, 0), |w| (w.x, w.y))
}

// A box of a window's own dots, where it lies on the desk.
fn placed(slot: Option<Window>, patch: Patch) -> Placed
    ensures { (p : List ℕ) → Placing (view p slot) patch.x patch.y patch.wide patch.high result }
{
    let (x, y) = corner(slot);
    Placed {
        across: Side::of(x, patch.x, patch.wide),
        down: Side::of(y, patch.y, patch.high),
    }
}

// A box of no dots.
const NO_DOTS: Patch = Patch {
    x: 0,
    y: 0,
    wide: 0,
    high: 0,
};

// Damage about a window, with a box of its own dots.
fn about(before: &State, how: How, window: u8, patch: Patch) -> Hurt
    ensures how { result.how ≡ how }
    ensures window { result.window ≡ window }
    ensures area { (p : List ℕ) → Placing (window_of (desk_of before.now p) window) patch.x patch.y patch.wide patch.high result.area }
{
    Hurt {
        how,
        window,
        area: placed(before.stack.window(window), patch),
    }
}

// Whether a window lies at x, y already.
fn lies_at(slot: Option<Window>, x: i16, y: i16) -> bool
    ensures { (p : List ℕ) → result ≡ (same_place (view p slot).x x && same_place (view p slot).y y) }
{
    corner(slot) == (x, y)
}

// What the event damages, where it damages anything.
pub(crate) fn decide(e: Event, taken: bool, before: &State) -> Option<Hurt>
    ensures { (z : Sizes) (bs p : List ℕ) → taken ≡ taken_of (sizes_of z) (desk_of before.now p) (meaning bs e) → Decides (sizes_of z) (desk_of before.now p) (meaning bs e) result }
{
    if !taken {
        return None;
    }
    match e {
        Event::Close { window, .. } => Some(about(before, How::Turned, window, NO_DOTS)),
        Event::Raise { window, .. } => Some(about(before, How::Turned, window, NO_DOTS)),
        Event::Show { window, .. } => Some(about(before, How::Turned, window, NO_DOTS)),
        Event::Move { window, x, y, .. } => {
            if lies_at(before.stack.window(window), x, y) {
                return None;
            }
            Some(about(before, How::Moved, window, NO_DOTS))
        }
        Event::Fill { window, patch, .. } => Some(about(before, How::Painted, window, patch)),
        Event::Put {
            window,
            x,
            y,
            colours,
            ..
        } => {
            let row = Patch {
                x,
                y,
                wide: colours.count,
                high: 1,
            };
            Some(about(before, How::Painted, window, row))
        }
        Event::Copy {
            window,
            patch,
            to_x,
            to_y,
            ..
        } => Some(about(before, How::Painted, window, patch.moved_to(to_x, to_y))),
        Event::Make { .. } => None,
        Event::Offer { .. } => None,
        Event::Point { .. } => None,
        Event::Press { .. } => None,
        Event::Key { .. } => None,
        Event::Paste => None,
    }
}

impl Hurt {
    // Whether the dot is damaged.
    pub(crate) fn at(self, before: &State, after: &State, dot: Dot) -> bool
        ensures { (p q : List ℕ) → result ≡ hurts self (desk_of before.now p) (desk_of after.now q) dot.i dot.j }
    {
        let window = Some(self.window);
        // one match on the kind of damage, where each arm asks something else of the dot
        match self.how {
            How::Turned => dot.turned(before, after),
            How::Moved => dot.turned(before, after) || dot.front(after) == window,
            How::Painted => self.area.contains(dot) && dot.front(before) == window,
        }
    }
}
