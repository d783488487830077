// Changes of windows that are there.
ghost use Rattle.std.specs.Prelude.{◌≡◌, ℕ, ◌+◌, ◌^◌, ◌<◌, ◌≤◌, List, None, slice_index_or, slice_set};
ghost use Rattle.model.specs.Basics.{pick};
ghost use Rattle.model.specs.Desk.{Desk, mine};
ghost use Rattle.model.specs.Desk.{window as window_of};
ghost use Rattle.stack.specs.View.{slots_of, windows_of, order_of, placed, shown_as, put_at, put_on, packed, size_of};
ghost use Rattle.stack.specs.View.{begun as begun_at};
ghost use Rattle.stack.specs.Found.{ChangedBy};

use crate::state::{Stack, Window};

// The window with its picture beginning at a place, and the place behind its picture.
fn begun(slot: Option<Window>, at: usize) -> (Option<Window>, usize)
    requires { at + 4294836225 < 2 ^ 64 }
    ensures window { result.0 ≡ begun_at at slot }
    ensures behind { (result.1 ≡ at + size_of slot) × (size_of slot ≤ 4294836225) }
{
    let Some(w) = slot else {
        return (None, at);
    };
    (Some(Window { at, ..w }), at + w.dots() as usize)
}

impl Stack {
    // The window n is what f makes of it from now on, where it is there and its owner is c; whether it is.
    fn change<F: FnOnce(Window) -> Window>(&mut self, c: u8, n: u8, f: F) -> bool
        requires { F.IsAlwaysCallable f }
        ensures changed { ChangedBy (F.post f) self.old c n result self.new }
        ensures order { order_of self.new ≡ order_of self.old }
        ensures limit { self.new.limit ≡ self.old.limit }
    {
        let Some(w) = self.owned(c, n) else {
            return false;
        };
        self.set_window(n, Some(f(w)));
        true
    }

    // The window n lies at x, y from now on, where it is there and its owner is c; whether it is.
    pub fn move_to(&mut self, c: u8, n: u8, x: i16, y: i16) -> bool
        ensures answer { (d : Desk) (p : List ℕ) → d.windows ≡ windows_of self.old p → result ≡ mine d c n }
        ensures windows { (d : Desk) (p : List ℕ) → d.windows ≡ windows_of self.old p → windows_of self.new p ≡ pick (mine d c n) (slice_set d.windows n (placed (window_of d n) c x y)) d.windows }
        ensures slots { slots_of self.new ≡ pick result (slice_set (slots_of self.old) n (put_at x y (slice_index_or (slots_of self.old) n None))) (slots_of self.old) }
        ensures order { order_of self.new ≡ order_of self.old }
        ensures limit { self.new.limit ≡ self.old.limit }
    {
        self.change(c, n, |w| Window { x, y, ..w })
    }

    // The window n is shown or not from now on, where it is there and its owner is c; whether it is.
    pub fn show(&mut self, c: u8, n: u8, on: bool) -> bool
        ensures answer { (d : Desk) (p : List ℕ) → d.windows ≡ windows_of self.old p → result ≡ mine d c n }
        ensures windows { (d : Desk) (p : List ℕ) → d.windows ≡ windows_of self.old p → windows_of self.new p ≡ pick (mine d c n) (slice_set d.windows n (shown_as (window_of d n) c on)) d.windows }
        ensures slots { slots_of self.new ≡ pick result (slice_set (slots_of self.old) n (put_on on (slice_index_or (slots_of self.old) n None))) (slots_of self.old) }
        ensures order { order_of self.new ≡ order_of self.old }
        ensures limit { self.new.limit ≡ self.old.limit }
    {
        self.change(c, n, |w| Window { shown: on, ..w })
    }

    // The pictures lie one after another from now on, in the order of the windows' numbers and without a gap.
    pub fn pack(&mut self)
        ensures slots { slots_of self.new ≡ packed 0 (slots_of self.old) }
        ensures order { order_of self.new ≡ order_of self.old }
        ensures limit { self.new.limit ≡ self.old.limit }
    {
        let mut at = 0;
        for n in 0..self.limit {
            let old = self.slot(n);
            let (new, behind) = begun(old, at);
            // By index: after a loop over &mut the proof would know nothing of the windows.
            self.windows[n] = new;
            at = behind;
        }
    }
}
