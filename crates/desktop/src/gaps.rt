// Room for a picture between others: pictures lie one after another in one lent slice, the first `used` dots of it.
ghost use Rattle.std.specs.Prelude.{◌≡◌, ◌+◌, ◌≤◌, length};
ghost use Rattle.desktop.specs.Gaps.{Opened, Closed};

// Moves what lies from `at` on up by `size` dots, and makes the dots between 0.
pub fn open_gap(pictures: &mut [u32], at: usize, size: usize, used: usize)
    ensures { at ≤ used → used + size ≤ length pictures.old → Opened at size used pictures.old pictures.new }
{
    if at > used || size > pictures.len() || used > pictures.len() - size {
        return;
    }
    let _ = pixels::shift(pictures, at, at + size, used - at);
    let _ = pixels::clear(pictures, at, size);
}

// Moves what lies behind the `size` dots from `at` on down by `size` dots.
pub fn close_gap(pictures: &mut [u32], at: usize, size: usize, used: usize)
    ensures { at + size ≤ used → used ≤ length pictures.old → Closed at size used pictures.old pictures.new }
{
    if used > pictures.len() || size > used || at > used - size {
        return;
    }
    let _ = pixels::shift(pictures, at + size, at, used - (at + size));
}
