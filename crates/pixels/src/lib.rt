// Pictures, all of them in one lent slice of dots: painting in one, making it blank, moving it in the slice, and reading it.
// A request that does not fit is answered with false, and changes nothing.
#![tactic(auto)]

ghost use Rattle.std.specs.Prelude.{◌≡◌, ◌+◌, ◌-◌, ◌*◌, ◌^◌, ◌<◌, ◌≤◌, true, false, length, slice_index};
ghost use Rattle.std.specs.Option.{SomeIff, IfSome, is_some};
ghost use Rattle.pixels.specs.Runs.{Changed, run_fits, shift_fits};
ghost use Rattle.pixels.specs.Pictures.{place, dots_of, has_area, fits, copy_fits, out_fits, area_of, target_of, Painted, filled, put_in, copied};
ghost use Rattle.pixels.specs.Colours.{colour_at, colours_in, put_fits};

// A picture: where its first dot lies in the slice, and how many dots it has across and down. Its rows follow one another with no gap.
#[derive(Clone, Copy)]
pub struct Picture {
    pub at: usize,
    pub wide: usize,
    pub high: usize,
}

// A box of dots in a picture: its upper left dot, and how many dots it has across and down.
#[derive(Clone, Copy)]
pub struct Area {
    pub x: usize,
    pub y: usize,
    pub wide: usize,
    pub high: usize,
}

// A part of one row of a picture: its first dot, and how many dots it has.
#[derive(Clone, Copy)]
pub struct Span {
    pub x: usize,
    pub y: usize,
    pub wide: usize,
}

impl Span {
    // The span as a box of one row.
    fn area(self) -> Area
        ensures { result ≡ area_of self }
    {
        Area {
            x: self.x,
            y: self.y,
            wide: self.wide,
            high: 1,
        }
    }
}

impl Area {
    // The box of the same size at a, b.
    fn moved_to(self, a: usize, b: usize) -> Area
        ensures { result ≡ target_of self a b }
    {
        Area { x: a, y: b, ..self }
    }
}

impl Picture {
    // Where the picture ends in the slice, or None where that is past every slice.
    fn end(self) -> Option<usize>
        ensures { SomeIff result (self.at + self.wide * self.high < 2 ^ 64) (self.at + self.wide * self.high) }
    {
        let size = self.wide.checked_mul(self.high)?;
        self.at.checked_add(size)
    }

    // Whether the area is part of the picture.
    fn has(self, area: Area) -> bool
        ensures { result ≡ has_area self area }
    {
        run_fits(area.x, area.wide, self.wide) && run_fits(area.y, area.high, self.high)
    }

    // The area as a part of the picture, where it is one, and the picture lies in a slice of `len` dots.
    fn part(self, area: Area, len: usize) -> Option<Part>
        ensures answer { is_some result ≡ fits self area len }
        ensures picture { IfSome result (λ p. p.picture ≡ self) }
        ensures area { IfSome result (λ p. p.area ≡ area) }
        ensures lies { IfSome result (λ p. p.end ≤ len) }
    {
        let end = self.end()?;
        if end > len || !self.has(area) {
            return None;
        }
        Some(Part {
            picture: self,
            area,
            end,
        })
    }

    // Where the dot i, j lies in the slice, or None where that is past every slice.
    fn find(self, i: usize, j: usize) -> Option<usize>
        ensures { SomeIff result (place self.at self.wide i j < 2 ^ 64) (place self.at self.wide i j) }
    {
        let above = j.checked_mul(self.wide)?;
        let row = self.at.checked_add(above)?;
        row.checked_add(i)
    }
}

// An area that is part of a picture, and where the picture ends in the slice.
#[derive(Clone, Copy)]
struct Part {
    picture: Picture,
    area: Area,
    end: usize,
    ghost columns: { area.x + area.wide ≤ picture.wide },
    ghost rows: { area.y + area.high ≤ picture.high },
    ghost ends: { picture.at + picture.wide * picture.high ≡ end },
}

impl Part {
    // Where row r of the part begins in the slice.
    fn row(self, r: usize) -> usize
        requires { r < self.area.high }
        ensures value { result ≡ place self.picture.at self.picture.wide self.area.x (self.area.y + r) }
        ensures room { result + self.area.wide ≤ self.end }
    {
        self.picture.at + (self.area.y + r) * self.picture.wide + self.area.x
    }

    // Each row of the part is the colour.
    fn fill(self, pictures: &mut [u32], colour: u32)
        requires { self.end ≤ length pictures.old }
        ensures { Painted self.picture (filled self.area colour) pictures.old pictures.new }
    {
        for r in 0..self.area.high {
            fill_run(pictures, self.row(r), self.area.wide, colour);
        }
    }

    // The part `to` becomes what this one was, also where the two overlap.
    // Its first row goes first where it is not below this one, and else its last: so no row is written before it was read.
    fn copy(self, to: Part, pictures: &mut [u32])
        requires lies { self.end ≤ length pictures.old }
        requires picture { to.picture ≡ self.picture }
        requires wide { to.area.wide ≡ self.area.wide }
        requires high { to.area.high ≡ self.area.high }
        ensures { Painted self.picture (copied self.area to.area.x to.area.y) pictures.old pictures.new }
    {
        let high = self.area.high;
        let up = to.area.y <= self.area.y;
        // one loop for both ways, by the number of rows done
        for k in 0..high {
            let r = if up { k } else { high - 1 - k };
            copy_run(pictures, self.row(r), to.row(r), self.area.wide);
        }
    }
}

// Whether a slice of `len` elements has `count` of them from `from` on.
fn run_fits(from: usize, count: usize, len: usize) -> bool
    ensures { result ≡ run_fits from count len }
{
    from <= len && count <= len - from
}

// The run of dots is the colour.
fn fill_run(dots: &mut [u32], from: usize, count: usize, colour: u32)
    requires { from + count ≤ length dots.old }
    ensures { Changed from count (λ _. colour) dots.old dots.new }
{
    dots[from..from + count].fill(colour);
}

// The run of dots is what another run was, also where the two overlap.
fn copy_run(dots: &mut [u32], from: usize, to: usize, count: usize)
    requires source { from + count ≤ length dots.old }
    requires target { to + count ≤ length dots.old }
    ensures { Changed to count (λ k. slice_index dots.old (from + (k - to))) dots.old dots.new }
{
    dots.copy_within(from..from + count, to);
}

// The run of dots is 0, as a new picture is.
pub fn clear(dots: &mut [u32], from: usize, count: usize) -> bool
    ensures answer { result ≡ run_fits from count (length dots.old) }
    ensures done { result ≡ true → Changed from count (λ _. 0) dots.old dots.new }
    ensures refused { result ≡ false → dots.new ≡ dots.old }
{
    if !run_fits(from, count, dots.len()) {
        return false;
    }
    fill_run(dots, from, count, 0);
    true
}

// The area of the picture is the colour.
pub fn fill(pictures: &mut [u32], picture: Picture, area: Area, colour: u32) -> bool
    ensures answer { result ≡ fits picture area (length pictures.old) }
    ensures done { result ≡ true → Painted picture (filled area colour) pictures.old pictures.new }
    ensures refused { result ≡ false → pictures.new ≡ pictures.old }
{
    let Some(part) = picture.part(area, pictures.len()) else {
        return false;
    };
    part.fill(pictures, colour);
    true
}

// The box of the area's size at a, b becomes what the area was, also where the two overlap.
pub fn copy(pictures: &mut [u32], picture: Picture, area: Area, a: usize, b: usize) -> bool
    ensures answer { result ≡ copy_fits picture area a b (length pictures.old) }
    ensures done { result ≡ true → Painted picture (copied area a b) pictures.old pictures.new }
    ensures refused { result ≡ false → pictures.new ≡ pictures.old }
{
    let Some(from) = picture.part(area, pictures.len()) else {
        return false;
    };
    let Some(to) = picture.part(area.moved_to(a, b), pictures.len()) else {
        return false;
    };
    from.copy(to, pictures);
    true
}

// The run of dots at `to` becomes what the run at `from` was, also where the two overlap: pictures move in the slice.
pub fn shift(dots: &mut [u32], from: usize, to: usize, count: usize) -> bool
    ensures answer { result ≡ shift_fits from to count (length dots.old) }
    ensures done { result ≡ true → Changed to count (λ k. slice_index dots.old (from + (k - to))) dots.old dots.new }
    ensures refused { result ≡ false → dots.new ≡ dots.old }
{
    if !run_fits(from, count, dots.len()) || !run_fits(to, count, dots.len()) {
        return false;
    }
    copy_run(dots, from, to, count);
    true
}

// The dot i, j of a picture; outside of it, and where the slice has no such dot, 0.
pub fn dot(pictures: &[u32], picture: Picture, i: usize, j: usize) -> u32
    ensures { result ≡ dots_of pictures.now picture.at picture.wide picture.high i j }
{
    if i >= picture.wide || j >= picture.high {
        return 0;
    }
    let Some(k) = picture.find(i, j) else {
        return 0;
    };
    pictures.get(k).copied().unwrap_or(0)
}

// The colour in four bytes, the low one first. (protocol reads a number so too; neither crate stands on the other, and it is one call of the library.)
fn colour_at(call: &[u8], k: usize) -> u32
    requires { k + 4 ≤ length call.now }
    ensures { result ≡ colour_at call.now k }
{
    u32::from_le_bytes([call[k], call[k + 1], call[k + 2], call[k + 3]])
}

// The row is the colours of the call from byte `from` on: written by index, since a proof knows no elements after `iter_mut`.
fn read_colours(row: &mut [u32], call: &[u8], from: usize)
    requires { from + 4 * length row.old ≤ length call.now }
    ensures { row.new ≡ colours_in call.now from (length row.old) }
{
    for k in 0..row.len() {
        row[k] = colour_at(call, from + 4 * k);
    }
}

// The run of dots is the colours of the call from byte `from` on.
fn put_run(dots: &mut [u32], to: usize, count: usize, call: &[u8], from: usize)
    requires room { to + count ≤ length dots.old }
    requires colours { from + 4 * count ≤ length call.now }
    ensures { Changed to count (λ k. slice_index (colours_in call.now from count) (k - to)) dots.old dots.new }
{
    read_colours(&mut dots[to..to + count], call, from);
}

// Whether a call of `len` bytes has `count` colours from byte `from` on.
fn has_colours(from: usize, count: usize, len: usize) -> bool
    ensures { result ≡ run_fits from (4 * count) len }
{
    from <= len && count <= (len - from) / 4
}

// The dots of the span are the colours of the call from byte `from` on, four bytes each.
pub fn put(pictures: &mut [u32], picture: Picture, span: Span, call: &[u8], from: usize) -> bool
    ensures answer { result ≡ put_fits picture span (length pictures.old) from (length call.now) }
    ensures done { result ≡ true → Painted picture (put_in span.x span.y (colours_in call.now from span.wide)) pictures.old pictures.new }
    ensures refused { result ≡ false → pictures.new ≡ pictures.old }
{
    let Some(part) = picture.part(span.area(), pictures.len()) else {
        return false;
    };
    if !has_colours(from, span.wide, call.len()) {
        return false;
    }
    put_run(pictures, part.row(0), span.wide, call, from);
    true
}

// A run of one slice becomes what a run of the other is.
fn copy_across(dots: &[u32], from: usize, out: &mut [u32], to: usize, count: usize)
    requires source { from + count ≤ length dots.now }
    requires target { to + count ≤ length out.old }
    ensures { Changed to count (λ k. slice_index dots.now (from + (k - to))) out.old out.new }
{
    out[to..to + count].copy_from_slice(&dots[from..from + count]);
}

// The dots of the span are written into another slice, from `to` on.
pub fn copy_out(pictures: &[u32], picture: Picture, span: Span, out: &mut [u32], to: usize) -> bool
    ensures answer { result ≡ out_fits picture span (length pictures.now) to (length out.old) }
    ensures done { result ≡ true → Changed to span.wide (λ k. dots_of pictures.now picture.at picture.wide picture.high (span.x + (k - to)) span.y) out.old out.new }
    ensures refused { result ≡ false → out.new ≡ out.old }
{
    let Some(part) = picture.part(span.area(), pictures.len()) else {
        return false;
    };
    if !run_fits(to, span.wide, out.len()) {
        return false;
    }
    copy_across(pictures, part.row(0), out, to, span.wide);
    true
}

#[cfg(test)]
mod tests {
    use super::*;

    // A picture of 3 by 3 dots behind one dot of another: a box of 2 by 2 copied onto one that it overlaps, down and then up.
    #[test]
    fn copies_overlap(rt: HostRuntime) {
        let picture = Picture {
            at: 1,
            wide: 3,
            high: 3,
        };
        let corner = Area {
            x: 0,
            y: 0,
            wide: 2,
            high: 2,
        };
        let mut dots: [u32; 10] = [9, 1, 2, 3, 4, 5, 6, 7, 8, 0];
        assert!(rt; copy(&mut dots, picture, corner, 1, 1));
        assert_eq!(rt; dots, [9, 1, 2, 3, 4, 1, 2, 7, 4, 5]);
        assert!(rt; copy(&mut dots, picture, corner.moved_to(1, 1), 0, 0));
        assert_eq!(rt; dots, [9, 1, 2, 3, 4, 5, 2, 7, 4, 5]);
    }

    // A row of colours from the bytes of a call.
    #[test]
    fn puts_a_row(rt: HostRuntime) {
        let picture = Picture {
            at: 1,
            wide: 2,
            high: 2,
        };
        let span = Span {
            x: 0,
            y: 1,
            wide: 2,
        };
        let mut dots: [u32; 5] = [7; 5];
        assert!(rt; put(&mut dots, picture, span, &[0, 1, 2, 3, 4, 5, 0, 0, 1], 1));
        assert_eq!(rt; dots, [7, 7, 7, 67305985, 16777221]);
    }
}
