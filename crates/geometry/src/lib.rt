// Boxes of dots, and windows at signed places clipped to the screen.
// A dot is its column i and its row j, both counted from 0 at the upper left.
#![tactic(auto)]

ghost use Rattle.std.specs.Prelude.{◌≡◌, ℕ, ◌+◌, ◌-◌, ◌<◌, ◌≤◌, true, ◌&&◌, pos, ◌+ℤ◌, ◌-ℤ◌, int_le, int_lt, min, nat_le, nat_lt};
ghost use Rattle.std.specs.Int.Signed.{mag};
ghost use Rattle.model.specs.Desk.{clamp};
ghost use Rattle.model.specs.Grid.{from_zero};
ghost use Rattle.geometry.specs.Boxes.{in_rect, on_screen, in_placed, Neat, Touching, Empty};
ghost use Rattle.geometry.specs.Meaning.{IsBox, IsWindow, SameRect};

// A box of dots: from the column `left` up to `right`, and from the row `top` up to `below`, both left out.
// Where `right` is not past `left`, or `below` not past `top`, it has no dots.
#[derive(Clone, Copy, PartialEq, Eq, Debug)]
pub struct Rect {
    pub left: u16,
    pub top: u16,
    pub right: u16,
    pub below: u16,
}

// The box with no dots.
pub const BLANK: Rect = Rect {
    left: 0,
    top: 0,
    right: 0,
    below: 0,
};

impl Rect {
    // Whether the box has no dots.
    pub fn is_empty(self) -> bool
        ensures { Empty result self }
    {
        self.left >= self.right || self.top >= self.below
    }

    // How many columns it has.
    pub fn wide(self) -> u16
        ensures { result ≡ self.right - self.left }
    {
        self.right.saturating_sub(self.left)
    }

    // How many rows it has.
    pub fn high(self) -> u16
        ensures { result ≡ self.below - self.top }
    {
        self.below.saturating_sub(self.top)
    }

    // Whether a dot lies in the box.
    pub fn contains(self, i: u16, j: u16) -> bool
        ensures { result ≡ in_rect self i j }
    {
        // by comparisons: through the ranges of its sides a walk over many boxes took a sixth longer
        self.left <= i && i < self.right && self.top <= j && j < self.below
    }

    // The dots that both boxes have.
    pub fn meet(self, other: Rect) -> Rect
        ensures dots { (i j : ℕ) → in_rect result i j ≡ (in_rect self i j && in_rect other i j) }
        ensures neat { Neat self.right self.below result }
    {
        neat(
            self.left.max(other.left),
            self.top.max(other.top),
            self.right.min(other.right),
            self.below.min(other.below),
        )
    }

    // Whether the two boxes share a dot.
    pub fn touches(self, other: Rect) -> bool
        ensures { Touching result self other }
    {
        !self.meet(other).is_empty()
    }
}

// The box with these sides, or the one with no dots.
fn neat(left: u16, top: u16, right: u16, below: u16) -> Rect
    ensures dots { (i j : ℕ) → in_rect result i j ≡ ((nat_le left i && nat_lt i right) && (nat_le top j && nat_lt j below)) }
    ensures neat { Neat right below result }
{
    if left < right && top < below {
        Rect {
            left,
            top,
            right,
            below,
        }
    } else {
        BLANK
    }
}

// The place from 0 up to `limit` that is nearest to `a`.
pub fn bound(a: i32, limit: u16) -> u16
    ensures value { result ≡ min limit (from_zero a) }
    ensures within { result ≤ limit }
    ensures from { (i : ℕ) → i < limit → nat_le result i ≡ int_le a (pos i) }
    ensures upto { (i : ℕ) → i < limit → nat_lt i result ≡ int_lt (pos i) a }
{
    a.clamp(0, i32::from(limit)) as u16
}

// The places from 0 up to `limit` that lie in `len` places from `from` on: from the first answer up to the second.
fn span(from: i16, len: u16, limit: u16) -> (u16, u16)
    ensures within { result.1 ≤ limit }
    ensures places { (i : ℕ) → (nat_le result.0 i && nat_lt i result.1) ≡ (nat_lt i limit && (int_le from (pos i) && int_lt (pos i) (from +ℤ pos len))) }
{
    let start = i32::from(from);
    (bound(start, limit), bound(start + i32::from(len), limit))
}

// The dots of the screen that lie in a window of `wide` by `high` dots, whose upper left dot is at the place x, y.
pub fn clip(x: i16, y: i16, wide: u16, high: u16, across: u16, down: u16) -> Rect
    ensures dots { (i j : ℕ) → in_rect result i j ≡ (on_screen across down i j && in_placed x y wide high i j) }
    ensures neat { Neat across down result }
{
    let (left, right) = span(x, wide, across);
    let (top, below) = span(y, high, down);
    neat(left, top, right, below)
}

// How far the place i lies past x, where it does.
pub fn past(i: u16, x: i16) -> usize
    ensures { int_le x (pos i) ≡ true → result ≡ mag (pos i -ℤ x) }
{
    i32::from(i).abs_diff(i32::from(x)) as usize
}

// The place a, or else the nearest of the n places from 0 on (0 where there are none).
pub fn nearest(a: i16, n: u16) -> i16
    ensures { result ≡ clamp a n }
{
    a.max(0)
        .unsigned_abs()
        .min(n.saturating_sub(1))
        .cast_signed()
}

// What the boxes here are in the words of the desk.
pub fn meaning()
    ensures boxed { IsBox }
    ensures windows { IsWindow }
    ensures same { SameRect }
{}
