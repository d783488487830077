// Requests that paint: fill, put and copy.
ghost use Rattle.std.specs.Prelude.{◌≡◌, ℕ, true, List, Some};
ghost use Rattle.model.specs.Desk.{box_fits};
ghost use Rattle.model.specs.Desk.{fill as filling};
ghost use Rattle.model.specs.Desk.{put as putting};
ghost use Rattle.model.specs.Desk.{copy as copying};
ghost use Rattle.protocol.specs.Meaning.{part, lies};
ghost use Rattle.stack.specs.View.{view};
ghost use Rattle.layout.specs.Sizes.{sizes_of};
ghost use Rattle.desktop.specs.Does.{Does};
ghost use Rattle.desktop.specs.Painting.{area_at, span_at, Target};

use crate::told::{Told, answer};
use layout::sizes::Sizes;
use layout::state::State;
use pixels::{Area, Span};
use protocol::{Part, Patch};
use stack::state::Window;

// Whether a box lies in a window: its corner is a dot of the window, and its sides don't pass the window's.
#[tactic(auto, unfolding(model::specs::Desk::box_fits))]
pub fn has_box(w: Window, patch: Patch) -> bool
    ensures { (p : List ℕ) → result ≡ box_fits (view p (Some w)) patch.x patch.y patch.wide patch.high }
{
    let Patch { x, y, wide, high } = patch;
    x < w.wide
        && y < w.high
        && u32::from(x) + u32::from(wide) <= u32::from(w.wide)
        && u32::from(y) + u32::from(high) <= u32::from(w.high)
}

// The window that a program may paint in: its own, if the box lies in it.
fn target(s: &State, program: u8, window: u8, patch: Patch) -> Option<Window>
    ensures { Target s.now.stack program window patch result }
{
    let w = s.stack.owned(program, window)?;
    has_box(w, patch).then_some(w)
}

// A box of a window's own dots as an area of its picture.
fn area(patch: Patch) -> Area
    ensures { result ≡ area_at patch.x patch.y patch.wide patch.high }
{
    Area {
        x: usize::from(patch.x),
        y: usize::from(patch.y),
        wide: usize::from(patch.wide),
        high: usize::from(patch.high),
    }
}

// A row of a window's own dots as a span of its picture.
fn span(row: Patch) -> Span
    ensures { result ≡ span_at row.x row.y row.wide }
{
    Span {
        x: usize::from(row.x),
        y: usize::from(row.y),
        wide: usize::from(row.wide),
    }
}

// Each of the three kinds of paint answers by itself: one function that takes the painter as a closure would need a contract over all painters.

// The box has one colour.
pub fn fill(
    s: &State,
    pictures: &mut [u32],
    program: u8,
    window: u8,
    patch: Patch,
    colour: u32,
) -> Option<Told>
    ensures { (z : Sizes) → Does (sizes_of z) (filling program window patch.x patch.y patch.wide patch.high colour) s.now pictures.old s.now pictures.new result }
{
    let Some(w) = target(s, program, window, patch) else {
        return answer(program, false);
    };
    let taken = pixels::fill(pictures, w.picture(), area(patch), colour);
    answer(program, taken)
}

// The box at to_x, to_y has what the box at x, y had before.
pub fn copy(
    s: &State,
    pictures: &mut [u32],
    program: u8,
    window: u8,
    patch: Patch,
    to_x: u16,
    to_y: u16,
) -> Option<Told>
    ensures { (z : Sizes) → Does (sizes_of z) (copying program window patch.x patch.y patch.wide patch.high to_x to_y) s.now pictures.old s.now pictures.new result }
{
    let Some(w) = target(s, program, window, patch) else {
        return answer(program, false);
    };
    if !has_box(w, patch.moved_to(to_x, to_y)) {
        return answer(program, false);
    }
    let taken = pixels::copy(
        pictures,
        w.picture(),
        area(patch),
        usize::from(to_x),
        usize::from(to_y),
    );
    answer(program, taken)
}

// The dots from x on in row y have the colours, which are a part of the call.
pub fn put(
    s: &State,
    pictures: &mut [u32],
    call: &[u8],
    program: u8,
    window: u8,
    x: u16,
    y: u16,
    colours: Part,
) -> Option<Told>
    ensures { lies 4 call.now colours ≡ true → (z : Sizes) → Does (sizes_of z) (putting program window x y (part 4 call.now colours)) s.now pictures.old s.now pictures.new result }
{
    let row = Patch {
        x,
        y,
        wide: colours.count,
        high: 1,
    };
    let Some(w) = target(s, program, window, row) else {
        return answer(program, false);
    };
    let taken = pixels::put(pictures, w.picture(), span(row), call, colours.from);
    answer(program, taken)
}
