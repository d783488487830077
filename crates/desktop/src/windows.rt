// Requests that make, close, move, raise and show windows.
ghost use Rattle.std.specs.Prelude.{◌≡◌, ℕ, suc, ◌+◌, ◌*◌, ◌≤◌, ◌&&◌, List, length, None, ◌==◌, slice_index_or};
ghost use Rattle.layout.specs.Sizes.{sizes_of};
ghost use Rattle.desktop.specs.Does.{Does, DoesUnpainted};
ghost use Rattle.model.specs.Basics.{pick};
ghost use Rattle.stack.specs.View.{slots_of, numbered};
ghost use Rattle.desktop.specs.Windows.{makeable, start_of};
ghost use Rattle.model.specs.Desk.{make as making};
ghost use Rattle.model.specs.Desk.{close as closing};
ghost use Rattle.model.specs.Desk.{move as moving};
ghost use Rattle.model.specs.Desk.{raise as raising};
ghost use Rattle.model.specs.Desk.{show as showing};

use crate::gaps;
use crate::told::{Told, answer};
use layout::sizes::Sizes;
use layout::state::State;
use protocol::Word;
use stack::state::Window;

// The window lies at x, y from now on.
pub fn move_to(s: &mut State, program: u8, window: u8, x: i16, y: i16) -> Option<Told>
    ensures { (z : Sizes) → DoesUnpainted (sizes_of z) (moving program window x y) s.old s.new result }
{
    answer(program, s.stack.move_to(program, window, x, y))
}

// The window is shown or not from now on.
pub fn show(s: &mut State, program: u8, window: u8, on: bool) -> Option<Told>
    ensures { (z : Sizes) → DoesUnpainted (sizes_of z) (showing program window on) s.old s.new result }
{
    answer(program, s.stack.show(program, window, on))
}

// The window is in front of all from now on.
pub fn raise(s: &mut State, program: u8, window: u8) -> Option<Told>
    ensures { (z : Sizes) → DoesUnpainted (sizes_of z) (raising program window) s.old s.new result }
{
    if s.stack.owned(program, window).is_none() {
        return answer(program, false);
    }
    answer(program, s.stack.raise(window))
}

// Whether there may be one more window of these sides, with the number n and `used` dots in the pictures that there are.
fn may_make(z: Sizes, program: u8, n: u8, wide: u16, high: u16, used: u64) -> bool
    requires { used ≤ 4294836225 * 255 }
    ensures { result ≡ makeable (sizes_of z) program n wide high used }
{
    let sides = 1..=z.side;
    u32::from(program) < z.programs
        && u32::from(n) < z.windows
        && sides.contains(&u32::from(wide))
        && sides.contains(&u32::from(high))
        && used + u64::from(wide) * u64::from(high) <= u64::from(z.dots)
}

// Where the picture of the window n begins.
fn picture_start(s: &State, n: u8) -> usize
    ensures { result ≡ start_of (slice_index_or (slots_of s.now.stack) n None) }
{
    s.stack.window(n).map_or(0, |w| w.at)
}

// A new window with the lowest free number, in front, not shown, of colour 0.
pub fn make(
    z: Sizes,
    s: &mut State,
    pictures: &mut [u32],
    program: u8,
    x: i16,
    y: i16,
    wide: u16,
    high: u16,
) -> Option<Told>
    ensures { Does (sizes_of z) (making program x y wide high) s.old pictures.old s.new pictures.new result }
{
    let n = s.stack.lowest_free();
    let used = s.stack.area_used();
    if !may_make(z, program, n, wide, high, used) {
        return answer(program, false);
    }
    let window = Window {
        owner: program,
        shown: false,
        x,
        y,
        wide,
        high,
        at: 0,
    };
    s.stack.set_window(n, Some(window));
    s.stack.pack();
    let _ = s.stack.append(n);
    let at = picture_start(s, n);
    gaps::open_gap(pictures, at, window.dots() as usize, used as usize);
    Some(Told {
        program,
        word: Word::Made { window: n },
    })
}

// The window is gone; keys and pointer aren't its any more.
pub fn close(s: &mut State, pictures: &mut [u32], program: u8, window: u8) -> Option<Told>
    ensures { (z : Sizes) → Does (sizes_of z) (closing program window) s.old pictures.old s.new pictures.new result }
{
    let Some(w) = s.stack.owned(program, window) else {
        return answer(program, false);
    };
    let used = s.stack.area_used();
    s.stack.set_window(window, None);
    s.stack.pack();
    s.stack.remove(window);
    s.keys = let_go(s.keys, window);
    s.held = let_go(s.held, window);
    gaps::close_gap(pictures, w.at, w.dots() as usize, used as usize);
    answer(program, true)
}

// A window that has the keys or the pointer, unless it is n.
fn let_go(held: Option<u8>, n: u8) -> Option<u8>
    ensures { numbered result ≡ pick (numbered held == suc n) 0 (numbered held) }
{
    held.filter(|m| *m != n)
}
