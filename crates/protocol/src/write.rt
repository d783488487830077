// One writer a kind of event: how many bytes it wrote, or none if there is no room, and then nothing is changed.
// Its parameters are the fields of the kind, in their order in the bytes. (`close` and `raise` have the same: one function with the kind as a parameter
// would let a kind be written that has other fields.)
ghost use Rattle.std.specs.Prelude.{◌≡◌, true, length};
ghost use Rattle.model.specs.Desk as desk;
ghost use Rattle.protocol.specs.Added.{Wrote};
ghost use Rattle.protocol.specs.Formats.{encode};
ghost use Rattle.protocol.specs.Meaning.{part, lies};

use crate::kinds::Kind;
use crate::line::Line;
use crate::types::{Part, Patch};

pub fn write_make(
    out: &mut [u8],
    at: usize,
    program: u8,
    x: i16,
    y: i16,
    wide: u16,
    high: u16,
) -> Option<usize>
    ensures { Wrote true at (encode (desk.make program x y wide high)) out.old out.new result }
{
    Line::of(Kind::Make)
        .byte(program)
        .near(x)
        .near(y)
        .two(wide)
        .two(high)
        .write(out, at)
}

pub fn write_close(out: &mut [u8], at: usize, program: u8, window: u8) -> Option<usize>
    ensures { Wrote true at (encode (desk.close program window)) out.old out.new result }
{
    Line::of(Kind::Close)
        .byte(program)
        .byte(window)
        .write(out, at)
}

pub fn write_move(
    out: &mut [u8],
    at: usize,
    program: u8,
    window: u8,
    x: i16,
    y: i16,
) -> Option<usize>
    ensures { Wrote true at (encode (desk.move program window x y)) out.old out.new result }
{
    Line::of(Kind::Move)
        .byte(program)
        .byte(window)
        .near(x)
        .near(y)
        .write(out, at)
}

pub fn write_raise(out: &mut [u8], at: usize, program: u8, window: u8) -> Option<usize>
    ensures { Wrote true at (encode (desk.raise program window)) out.old out.new result }
{
    Line::of(Kind::Raise)
        .byte(program)
        .byte(window)
        .write(out, at)
}

pub fn write_show(out: &mut [u8], at: usize, program: u8, window: u8, on: bool) -> Option<usize>
    ensures { Wrote true at (encode (desk.show program window on)) out.old out.new result }
{
    Line::of(Kind::Show)
        .byte(program)
        .byte(window)
        .mark(on)
        .write(out, at)
}

pub fn write_fill(
    out: &mut [u8],
    at: usize,
    program: u8,
    window: u8,
    patch: Patch,
    colour: u32,
) -> Option<usize>
    ensures { Wrote true at (encode (desk.fill program window patch.x patch.y patch.wide patch.high colour)) out.old out.new result }
{
    Line::of(Kind::Fill)
        .byte(program)
        .byte(window)
        .patch(patch)
        .four(colour)
        .write(out, at)
}

pub fn write_put(
    out: &mut [u8],
    at: usize,
    source: &[u8],
    program: u8,
    window: u8,
    x: u16,
    y: u16,
    colours: Part,
) -> Option<usize>
    ensures { Wrote (lies 4 source.now colours) at (encode (desk.put program window x y (part 4 source.now colours))) out.old out.new result }
{
    Line::of(Kind::Put)
        .byte(program)
        .byte(window)
        .two(x)
        .two(y)
        .write_row(out, at, source, colours, 4)
}

pub fn write_copy(
    out: &mut [u8],
    at: usize,
    program: u8,
    window: u8,
    patch: Patch,
    to_x: u16,
    to_y: u16,
) -> Option<usize>
    ensures { Wrote true at (encode (desk.copy program window patch.x patch.y patch.wide patch.high to_x to_y)) out.old out.new result }
{
    Line::of(Kind::Copy)
        .byte(program)
        .byte(window)
        .patch(patch)
        .two(to_x)
        .two(to_y)
        .write(out, at)
}

pub fn write_offer(
    out: &mut [u8],
    at: usize,
    source: &[u8],
    program: u8,
    bytes: Part,
) -> Option<usize>
    ensures { Wrote (lies 1 source.now bytes) at (encode (desk.offer program (part 1 source.now bytes))) out.old out.new result }
{
    Line::of(Kind::Offer)
        .byte(program)
        .write_row(out, at, source, bytes, 1)
}

pub fn write_point(out: &mut [u8], at: usize, x: i16, y: i16) -> Option<usize>
    ensures { Wrote true at (encode (desk.point x y)) out.old out.new result }
{
    Line::of(Kind::Point).near(x).near(y).write(out, at)
}

pub fn write_press(out: &mut [u8], at: usize, down: bool) -> Option<usize>
    ensures { Wrote true at (encode (desk.press down)) out.old out.new result }
{
    Line::of(Kind::Press).mark(down).write(out, at)
}

pub fn write_key(out: &mut [u8], at: usize, key: u32) -> Option<usize>
    ensures { Wrote true at (encode (desk.key key)) out.old out.new result }
{
    Line::of(Kind::Key).four(key).write(out, at)
}

pub fn write_paste(out: &mut [u8], at: usize) -> Option<usize>
    ensures { Wrote true at (encode desk.paste) out.old out.new result }
{
    Line::of(Kind::Paste).write(out, at)
}
