// The screen's side: a screen by rows in a lent slice, which changes only by boxes.
ghost use Rattle.std.specs.Prelude.{◌≡◌, ◌+◌, ◌-◌, ◌*◌, ◌<◌, ◌≤◌, true, List, [], ◌∷◌, length, is_some, Some, None, slice_index};
ghost use Rattle.model.specs.Promise.{Box};
ghost use Rattle.pixels.specs.Runs.{Changed};
ghost use Rattle.damage.specs.Screen.{lies_on, boxes_in, box_of, First, Counted, Shown, Put, Refused, ReadIsWritten, WrittenIsRead, RowsJoin, PutsJoin};

use crate::head::{Head, Size};

// How many boxes were put onto a screen, and how many dots they have together.
#[derive(Clone, Copy)]
pub struct Applied {
    pub boxes: usize,
    pub dots: usize,
}

// A box that lies on a screen of this size, with its dots by rows from above.
#[derive(Clone, Copy)]
struct Boxed<'a> {
    screen: Size,
    head: Head,
    dots: &'a [u32],
    ghost lies: { lies_on screen.wide screen.high head ≡ true },
    ghost whole: { length dots.now ≡ head.wide * head.high },
}

impl Boxed<'_> {
    // Where row r begins on the screen.
    fn row_at(&self, r: usize) -> usize
        requires { r < self.now.head.high }
        ensures { result ≡ (self.now.head.y + r) * self.now.screen.wide + self.now.head.x }
    {
        (usize::from(self.head.y) + r) * usize::from(self.screen.wide) + usize::from(self.head.x)
    }

    // Row r is put onto the screen.
    fn put_row(&self, screen: &mut [u32], r: usize)
        requires room { self.now.screen.wide * self.now.screen.high ≤ length screen.old }
        requires row { r < self.now.head.high }
        ensures { let h = self.now.head in let to = (h.y + r) * self.now.screen.wide + h.x in Changed to h.wide (λ k. slice_index self.now.dots.now (r * h.wide + (k - to))) screen.old screen.new }
    {
        let to = self.row_at(r);
        let count = usize::from(self.head.wide);
        let from = r * count;
        screen[to..to + count].copy_from_slice(&self.dots[from..from + count]);
    }

    // All of it is.
    fn put(&self, screen: &mut [u32])
        requires room { self.now.screen.wide * self.now.screen.high ≤ length screen.old }
        ensures { Shown self.now.screen.wide self.now.screen.high (box_of self.now.head self.now.dots.now ∷ []) screen.old screen.new }
    {
        for r in 0..usize::from(self.head.high) {
            self.put_row(screen, r);
        }
    }
}

impl Size {
    // The first box in the words and the words behind it, or None where they begin with no box on the screen.
    fn first_box(self, words: &[u32]) -> Option<(Boxed, &[u32])>
        ensures { elim result [ None ↦ 0 < length words.now → boxes_in self.wide self.high words.now ≡ None | Some f ↦ First self words.now f.0.screen f.0.head f.0.dots.now f.1.now ] }
    {
        let [place, size, rest @ ..] = words else {
            return None;
        };
        let head = Head::from_words(*place, *size);
        if !head.lies_on(self) {
            return None;
        }
        let (dots, behind) = rest.split_at_checked(head.dots())?;
        let screen = self;
        Some((Boxed { screen, head, dots }, behind))
    }

    // Counts the boxes in the words and their dots, or says that the words are no row of boxes on the screen.
    fn count(self, sent: &[u32]) -> Option<Applied>
        ensures { elim result [ None ↦ boxes_in self.wide self.high sent.now ≡ None | Some a ↦ Counted self.wide self.high sent.now a.boxes a.dots ] }
    {
        let mut rest = sent;
        let mut boxes: usize = 0;
        let mut dots: usize = 0;
        'boxes: while !rest.is_empty() {
            let (first, behind) = self.first_box(rest)?;
            boxes += 1;
            dots += first.dots.len();
            rest = behind;
        }
        Some(Applied { boxes, dots })
    }

    // The boxes in the words, which are known to be a row of boxes, are put onto the screen.
    fn put_boxes(self, screen: &mut [u32], sent: &[u32])
        requires room { self.wide * self.high ≤ length screen.old }
        requires read { is_some (boxes_in self.wide self.high sent.now) ≡ true }
        ensures { (bs : List Box) → boxes_in self.wide self.high sent.now ≡ Some bs → Shown self.wide self.high bs screen.old screen.new }
    {
        let mut rest = sent;
        'boxes: while let Some((first, behind)) = self.first_box(rest) {
            first.put(screen);
            rest = behind;
        }
    }
}

// Puts the boxes in `sent` onto the screen: how many boxes and how many dots, or None where the words are no row of boxes on that screen, or the
// slice is too short for it, and then nothing changes: so the boxes are counted before the first is put.
pub fn apply(screen: &mut [u32], wide: u16, high: u16, sent: &[u32]) -> Option<Applied>
    ensures { elim result [ None ↦ Refused wide high sent.now screen.old screen.new | Some a ↦ Put wide high sent.now screen.old screen.new a.boxes a.dots ] }
{
    let size = Size { wide, high };
    if screen.len() < size.dots() {
        return None;
    }
    let applied = size.count(sent)?;
    size.put_boxes(screen, sent);
    Some(applied)
}

// What is read is what was written, what is written is read, and rows of words can be put one after the other.
pub fn screen_stands()
    ensures read { ReadIsWritten }
    ensures written { WrittenIsRead }
    ensures rows { RowsJoin }
    ensures puts { PutsJoin }
{}

#[cfg(test)]
mod tests {
    use super::*;
    use std::test::Fail;

    // A box of one column in the middle of a screen of 3 by 2 dots, with one element behind the screen.
    #[test]
    fn puts_a_box(rt: HostRuntime) -> Result<(), Fail> {
        let mut screen: [u32; 7] = [1, 2, 3, 4, 5, 6, 9];
        let Some(applied) = apply(&mut screen, 3, 2, &[1, 131073, 7, 8]) else {
            assert!(rt; false);
            return Ok(());
        };
        assert_eq!(rt; applied.boxes, 1);
        assert_eq!(rt; applied.dots, 2);
        assert_eq!(rt; screen, [1, 7, 3, 4, 8, 6, 9]);
        Ok(())
    }

    // The second box passes the right edge, so the first is not put either.
    #[test]
    fn refuses_a_box_past_the_edge(rt: HostRuntime) {
        let mut screen: [u32; 6] = [1, 2, 3, 4, 5, 6];
        assert!(rt; apply(&mut screen, 3, 2, &[0, 65537, 7, 2, 65538, 8, 8]).is_none());
        assert_eq!(rt; screen, [1, 2, 3, 4, 5, 6]);
    }

    // A box whose last dot is missing, and a head that is cut.
    #[test]
    fn refuses_cut_words(rt: HostRuntime) {
        let mut screen: [u32; 6] = [1, 2, 3, 4, 5, 6];
        assert!(rt; apply(&mut screen, 3, 2, &[0, 65538, 7]).is_none());
        assert!(rt; apply(&mut screen, 3, 2, &[0, 65537, 7, 1]).is_none());
        assert_eq!(rt; screen, [1, 2, 3, 4, 5, 6]);
    }
}
