// What is seen of the desk, dot by dot: every window is looked at for every dot.
ghost use Rattle.std.specs.Prelude.{◌≡◌, ◌<◌};
ghost use Rattle.model.specs.Desk.{dot};
ghost use Rattle.layout.specs.State.{desk_of};

use geometry::past;
use layout::state::State;

// The colour that is seen at a dot of the desk: the front window's dot there, or 0.
pub fn dot_at(s: &State, pictures: &[u32], i: u16, j: u16) -> u32
    ensures { i < 32768 → j < 32768 → result ≡ dot (desk_of s.now pictures.now) i j }
{
    let (Ok(x), Ok(y)) = (i16::try_from(i), i16::try_from(j)) else {
        return 0;
    };
    let Some((_, w)) = s.stack.front_window(x, y) else {
        return 0;
    };
    pixels::dot(pictures, w.picture(), past(i, w.x), past(j, w.y))
}
