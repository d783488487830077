// Regions: sets of dots of the desk as boxes that do not overlap, in one canonical form, so that equal sets are equal words.
// In memory a box is two words, left + 65536 · top and right + 65536 · below; a region is a slice of these.
#![tactic(auto)]

ghost use Rattle.std.specs.Prelude.{◌≡◌, ℕ, ◌+◌, ◌-◌, ◌*◌, ◌/◌, ◌%◌, ◌^◌, ◌<◌, ◌≤◌, min, true, false, [], ◌∷◌, length, take, drop, if◌then◌else◌, Decides, MatchOption, ◌==◌, slice_index_or, slice_set};
ghost use Rattle.std.specs.List.{AllZip};
ghost use Rattle.std.specs.Iterator.{YieldsFirst, item_count};
ghost use Rattle.std.specs.Iterator.Runs.{YieldsInOrder};
ghost use Rattle.geometry.specs.Boxes.{blank};
ghost use Rattle.region.specs.Edges.{Between, inside};
ghost use Rattle.region.specs.Boxes.{edges, act, across, Rows, none, placed};
ghost use Rattle.region.specs.Bands.{same_edges};
ghost use Rattle.region.specs.Flat.{covers, Canonical};
ghost use Rattle.region.specs.Lines.{Roomy};
ghost use Rattle.region.specs.Checks.{fits_band, in_band, follows_on};
ghost use Rattle.region.specs.Words.{unpacked, rects, boxes_left, one, Makes, Combines, BoxesOne};
ghost use Rattle.region.specs.Shift.{shifted, shifted_one, Stays, steps_forth, steps_back, coming, Moves};
ghost use Rattle.region.specs.Dots.{area, Counts, NoDots};
ghost use Rattle.region.specs.Laws.{Unique, Found, Few, BoxIs, Apart, Measured};
ghost use Rattle.region.specs.Reader.{Rest, Slab, leading, stretched};

use geometry::{BLANK, Rect};
use halves::{halves, word};

// What is made of two sets.
#[derive(Clone, Copy)]
pub enum Op {
    Join,
    Meet,
    Cut,
}

// An enum and one match: with a closure in its place each caller's contract would have to say of the closure what `act` says once.
impl Op {
    // Whether a dot that is in a and in b or not is in what this makes of them.
    fn holds(self, a: bool, b: bool) -> bool
        ensures { result ≡ act self a b }
    {
        match self {
            Op::Join => a || b,
            Op::Meet => a && b,
            Op::Cut => a && !b,
        }
    }
}

// A desk has at most so many columns and rows.
const SIDE: u16 = 4096;

// The edge after the last of a row, and the row at which no band ends.
const NONE: u16 = 65535;

// The two words of a box.
pub fn words_of(r: Rect) -> [u32; 2]
    ensures are { result ≡ (r.left + r.top * 65536) ∷ (r.right + r.below * 65536) ∷ [] }
    ensures boxes { rects result ≡ r ∷ [] }
{
    [word(r.left, r.top), word(r.right, r.below)]
}

// The box of two words.
fn rect_of(a: u32, b: u32) -> Rect
    ensures { result ≡ unpacked a b }
{
    let (left, top) = halves(a);
    let (right, below) = halves(b);
    Rect {
        left,
        top,
        right,
        below,
    }
}

// The i-th box of some words; past the last, the box with no dots.
pub fn rect_at(s: &[u32], i: usize) -> Rect
    ensures { result ≡ slice_index_or (rects s.now) i blank }
{
    if i >= s.len() / 2 {
        return BLANK;
    }
    rect_of(s[2 * i], s[2 * i + 1])
}

// The boxes of some words, one after the other; an odd last word is none.
#[derive(Drop)]
struct Boxes<'a> {
    words: &'a [u32],
}

impl<'a> Iterator for Boxes<'a> {
    type Item = Rect;

    ghost next_gives = { YieldsFirst boxes_left };

    ghost remaining = { item_count boxes_left };

    fn next(&mut self) -> Option<Rect> {
        let [a, b, rest @ ..] = self.words else {
            return None;
        };
        self.words = rest;
        Some(rect_of(*a, *b))
    }
}

// The boxes of some words.
fn boxes_of(s: &[u32]) -> Boxes<'_>
    ensures value { boxes_left result ≡ rects s.now }
    ensures runs { YieldsInOrder (YieldsFirst boxes_left) boxes_left }
{
    Boxes { words: s }
}

// Writes r as the i-th box of some words.
fn put_rect(s: &mut [u32], i: usize, r: Rect)
    requires { i < length s.old / 2 }
    ensures boxes { rects s.new ≡ slice_set (rects s.old) i r }
    ensures words { s.new ≡ slice_set (slice_set s.old (2 * i) (r.left + r.top * 65536)) (2 * i + 1) (r.right + r.below * 65536) }
{
    let [a, b] = words_of(r);
    s[2 * i] = a;
    s[2 * i + 1] = b;
}

// Writes f of each box in its place. By index: of what a mutable iterator wrote a proof would know nothing.
fn change_boxes<F: Fn(Rect) -> Rect>(s: &mut [u32], f: F)
    requires { F.IsAlwaysCallable f }
    ensures { AllZip (F.post f) (rects s.old) (rects s.new) }
{
    for i in 0..s.len() / 2 {
        put_rect(s, i, f(rect_at(s, i)));
    }
}

// The k-th place where the row of boxes begins or ends, and NONE past the last.
fn edge(a: &[u32], k: usize) -> u16
    ensures { result ≡ slice_index_or (edges (rects a.now)) k none }
{
    if k / 2 >= a.len() / 2 {
        return NONE;
    }
    let r = rect_at(a, k / 2);
    if k % 2 == 0 { r.left } else { r.right }
}

// Writes x as the n-th edge of a row of boxes whose first n edges stand in out.
fn put_edge(out: &mut [u32], n: usize, x: u16, top: u16, below: u16)
    requires { n < 2 * (length out.old / 2) }
    ensures { rects out.new ≡ placed (rects out.old) n x top below }
{
    let r = if n % 2 == 0 {
        Rect {
            left: x,
            top,
            right: NONE,
            below,
        }
    } else {
        Rect {
            left: rect_at(out, n / 2).left,
            top,
            right: x,
            below,
        }
    };
    put_rect(out, n / 2, r);
}

// One past k if the k-th edge is x.
fn passed(a: &[u32], k: usize, x: u16) -> usize
    requires { k < 2 ^ 32 }
    ensures { result ≡ (if slice_index_or (edges (rects a.now)) k none == x then k + 1 else k) }
{
    if edge(a, k) == x { k + 1 } else { k }
}

// Writes the boxes of one row that cover what `op` makes of the rows a and b, and says how many.
// Each row keeps its place by a number, since the next edge of the two is not always the same row's.
fn combine_row(a: &[u32], b: &[u32], op: Op, top: u16, below: u16, out: &mut [u32]) -> usize
    requires left { Between 0 (edges (rects a.now)) 4097 }
    requires right { Between 0 (edges (rects b.now)) 4097 }
    requires room { length (rects a.now) + length (rects b.now) ≤ length (rects out.old) }
    ensures few { result ≤ length (rects a.now) + length (rects b.now) }
    ensures canonical { Between 0 (edges (take result (rects out.new))) 4097 }
    ensures dots { (i : ℕ) → across (take result (rects out.new)) i ≡ act op (across (rects a.now) i) (across (rects b.now) i) }
    ensures rows { Rows top below (take result (rects out.new)) }
    ensures rest { drop result (rects out.new) ≡ drop result (rects out.old) }
{
    let mut p: usize = 0;
    let mut q: usize = 0;
    let mut n: usize = 0;
    'sweep: loop {
        let x = edge(a, p).min(edge(b, q));
        if x == NONE {
            return n / 2;
        }
        p = passed(a, p, x);
        q = passed(b, q, x);
        let inside = op.holds(p % 2 == 1, q % 2 == 1);
        if inside != (n % 2 == 1) {
            put_edge(out, n, x, top, below);
            n += 1;
        }
    }
}

// The first box from p on that has another top than `top`.
fn band_end(a: &[u32], p: usize, top: u16) -> usize
    requires { p ≤ length a.now / 2 }
    ensures { result ≡ p + leading top (drop p (rects a.now)) }
{
    p + boxes_of(&a[2 * p..]).take_while(|r| r.top == top).count()
}

// The boxes of one row of a region, from the box `from` up to the box `end`; the rows up to `below` are like it.
#[derive(Clone, Copy)]
struct Band {
    from: usize,
    end: usize,
    below: u16,
    ghost ordered: { from ≤ end },
}

impl Band {
    // How many boxes it has.
    fn len(self) -> usize
        ensures { result ≡ self.end - self.from }
    {
        self.end - self.from
    }

    // Its words, of those of its region.
    fn words(self, a: &[u32]) -> &[u32]
        requires { 2 * self.end ≤ length a.now }
        ensures boxes { rects result.now ≡ take (self.end - self.from) (drop self.from (rects a.now)) }
        ensures long { length (rects result.now) ≡ self.end - self.from }
    {
        &a[2 * self.from..2 * self.end]
    }

    // Where a reader stands at the row `to`: past the boxes where the band ends there.
    fn onward(self, to: u16) -> usize
        ensures { result ≡ (if self.below == to then self.end else self.from) }
    {
        if self.below == to {
            self.end
        } else {
            self.from
        }
    }
}

// The band of the row y, whose boxes begin at p if it has some.
fn band_at(a: &[u32], p: usize, y: u16) -> Band
    requires { Rest (rects a.now) p y }
    ensures from { result.from ≡ p }
    ensures slab { Slab (rects a.now) p y result.end result.below }
    ensures within { 2 * result.end ≤ length a.now }
{
    if p >= a.len() / 2 {
        return Band {
            from: p,
            end: p,
            below: NONE,
        };
    }
    let first = rect_at(a, p);
    if y < first.top {
        return Band {
            from: p,
            end: p,
            below: first.top,
        };
    }
    Band {
        from: p,
        end: band_end(a, p, first.top),
        below: first.below,
    }
}

// Whether the boxes of two rows stand at the same places across.
fn same_row(u: &[u32], v: &[u32]) -> bool
    ensures { result ≡ same_edges (edges (rects u.now)) (edges (rects v.now)) }
{
    u.len() / 2 == v.len() / 2
        && boxes_of(u)
            .zip(boxes_of(v))
            .all(|(f, g)| f.left == g.left && f.right == g.right)
}

// Has the boxes of a band end at another row.
fn stretch(s: &mut [u32], below: u16)
    ensures { rects s.new ≡ stretched below (rects s.old) }
{
    change_boxes(s, |r| Rect { below, ..r });
}

// Writes the boxes of what `op` makes of the regions a and b, and says how many; None if out is too short.
// The boxes before p and q are passed; in out, the last band begins at m and ends at n.
fn sweep(a: &[u32], b: &[u32], op: Op, out: &mut [u32]) -> Option<usize>
    requires left { Canonical (rects a.now) }
    requires right { Canonical (rects b.now) }
    ensures { MatchOption result (Roomy (rects a.now) (rects b.now) (length out.old / 2) → ⊥) (λ n. Makes op (rects a.now) (rects b.now) out.new n) }
{
    let mut p: usize = 0;
    let mut q: usize = 0;
    let mut y: u16 = 0;
    let mut m: usize = 0;
    let mut n: usize = 0;
    'bands: loop {
        let u = band_at(a, p, y);
        let v = band_at(b, q, y);
        let to = u.below.min(v.below);
        if to == NONE {
            return Some(n);
        }
        if out.len() / 2 - n < u.len() + v.len() {
            return None;
        }
        let k = combine_row(u.words(a), v.words(b), op, y, to, &mut out[2 * n..]);
        if same_row(&out[2 * m..2 * n], &out[2 * n..2 * (n + k)]) {
            stretch(&mut out[2 * m..2 * n], to);
        } else {
            m = n;
            n += k;
        }
        y = to;
        p = u.onward(to);
        q = v.onward(to);
    }
}

// Whether a box may stand in a band with these rows, from the column `low` on.
fn fits(r: Rect, top: u16, below: u16, low: u16) -> bool
    ensures { result ≡ fits_band top below low r }
{
    r.top == top && r.below == below && low <= r.left && r.left < r.right && r.right <= SIDE
}

// Whether some boxes stand in one band with these rows, with a dot or more between them.
fn in_band(s: &[u32], top: u16, below: u16) -> bool
    ensures { result ≡ in_band top below 0 (rects s.now) }
{
    let mut low: u16 = 0;
    for r in boxes_of(s) {
        if !fits(r, top, below, low) {
            return false;
        }
        low = r.right + 1;
    }
    true
}

// Whether the boxes of `band`, the first of which is `first`, are a band that may stand below `above`, which ends at the row y.
fn follows(above: &[u32], y: u16, band: &[u32], first: Rect) -> bool
    ensures { result ≡ follows_on (rects above.now) y (rects band.now) first }
{
    y <= first.top
        && first.top < first.below
        && first.below <= SIDE
        && in_band(band, first.top, first.below)
        && !(y == first.top && same_row(above, band))
}

// Whether some boxes are a region. One walk, a band at each step and not a box, with the band above it in view.
pub fn is_region(a: &[u32]) -> bool
    ensures { Decides result (Canonical (rects a.now)) }
{
    let mut m: usize = 0;
    let mut p: usize = 0;
    let mut y: u16 = 0;
    'bands: while p < a.len() / 2 {
        let first = rect_at(a, p);
        let end = band_end(a, p, first.top);
        if !follows(&a[2 * m..2 * p], y, &a[2 * p..2 * end], first) {
            return false;
        }
        m = p;
        p = end;
        y = first.below;
    }
    true
}

// Writes the boxes of what `op` makes of the regions a and b, and says how many; None if a or b is no region, or out is too short.
pub fn combine(a: &[u32], b: &[u32], op: Op, out: &mut [u32]) -> Option<usize>
    ensures { Combines op (rects a.now) (rects b.now) (length out.old / 2) out.new result }
{
    if !is_region(a) || !is_region(b) {
        return None;
    }
    sweep(a, b, op, out)
}

// Writes the region that covers one box, and says how many boxes it has; None if the box has dots and passes the desk, or there is no room.
pub fn from_rect(r: Rect, out: &mut [u32]) -> Option<usize>
    ensures { BoxesOne r out.old out.new result }
{
    if r.left >= r.right || r.top >= r.below {
        return Some(0);
    }
    if r.right > SIDE || r.below > SIDE || out.len() < 2 {
        return None;
    }
    put_rect(out, 0, r);
    Some(1)
}

// The dots of a region that lie in a box too: so many boxes at the start of `out`.
fn meet_rect(a: &[u32], r: Rect, out: &mut [u32]) -> Option<usize>
    requires on_right { r.right ≤ 4096 }
    requires on_below { r.below ≤ 4096 }
    ensures { Combines Op.Meet (rects a.now) (one r) (length out.old / 2) out.new result }
{
    let mut words: [u32; 2] = [0; 2];
    let Some(k) = from_rect(r, &mut words) else {
        return unreachable();
    };
    combine(a, &words[..2 * k], Op::Meet, out)
}

// The place that comes to x, when all go d to the right or down; the desk's end for one past it.
fn before(x: u16, d: i16) -> u16
    ensures { result ≡ min (x + steps_back d - steps_forth d) 4096 }
{
    x.saturating_sub_signed(d).min(SIDE)
}

// The dots that come to lie on the screen, when all go dx to the right and dy down.
fn source(dx: i16, dy: i16, across: u16, down: u16) -> Rect
    ensures { result ≡ coming (steps_forth dx) (steps_back dx) (steps_forth dy) (steps_back dy) across down }
{
    Rect {
        left: before(0, dx),
        top: before(0, dy),
        right: before(across.min(SIDE), dx),
        below: before(down.min(SIDE), dy),
    }
}

// A box dx to the right and dy down.
fn moved(b: Rect, dx: i16, dy: i16) -> Rect
    ensures { Stays (steps_forth dx) (steps_back dx) (steps_forth dy) (steps_back dy) (b ∷ []) → result ≡ shifted_one (steps_forth dx) (steps_back dx) (steps_forth dy) (steps_back dy) b }
{
    Rect {
        left: b.left.saturating_add_signed(dx),
        top: b.top.saturating_add_signed(dy),
        right: b.right.saturating_add_signed(dx),
        below: b.below.saturating_add_signed(dy),
    }
}

// Moves each box dx to the right and dy down.
fn move_boxes(s: &mut [u32], dx: i16, dy: i16)
    requires { Stays (steps_forth dx) (steps_back dx) (steps_forth dy) (steps_back dy) (rects s.old) }
    ensures { rects s.new ≡ shifted (steps_forth dx) (steps_back dx) (steps_forth dy) (steps_back dy) (rects s.old) }
{
    change_boxes(s, |b| moved(b, dx, dy));
}

// Writes the region a, moved by dx columns and dy rows, as far as it then lies on a screen, and says how many boxes it has.
// None if a is no region, or out is too short. Of a screen past the desk the desk counts.
pub fn shift(a: &[u32], dx: i16, dy: i16, across: u16, down: u16, out: &mut [u32]) -> Option<usize>
    ensures { Moves (rects a.now) dx dy across down (length out.old / 2) out.new result }
{
    let n = meet_rect(a, source(dx, dy, across, down), out)?;
    move_boxes(&mut out[..2 * n], dx, dy);
    Some(n)
}

// Whether a dot lies in some box.
pub fn contains(a: &[u32], i: u16, j: u16) -> bool
    ensures { result ≡ covers (rects a.now) i j }
{
    boxes_of(a).any(|r| r.contains(i, j))
}

// Whether no box has a dot. Of a region the first box tells.
pub fn is_empty(a: &[u32]) -> bool
    ensures { NoDots result (rects a.now) }
{
    boxes_of(a).all(|r| r.is_empty())
}

// The dots of all boxes.
fn dots_of(a: &[u32]) -> u32
    requires { Canonical (rects a.now) }
    ensures { result ≡ area (rects a.now) }
{
    boxes_of(a)
        .map(|r| u32::from(r.wide()) * u32::from(r.high()))
        .sum()
}

// How many dots a region has; None if the boxes are no region.
pub fn count(a: &[u32]) -> Option<u32>
    ensures { Counts (rects a.now) result }
{
    if !is_region(a) {
        return None;
    }
    Some(dots_of(a))
}

// The laws that callers may lean on.
pub fn laws()
    ensures unique { Unique }
    ensures found { Found }
    ensures few { Few }
    ensures single { BoxIs }
    ensures apart { Apart }
    ensures measured { Measured }
{}

#[cfg(test)]
mod tests;
