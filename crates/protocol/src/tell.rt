// One writer a kind of word: how many bytes it wrote, or none if there is no room, and then nothing is changed.
// (`no` and `done` share all but their kind: one function with the kind as a parameter would let a kind be written that has other fields.)
ghost use Rattle.std.specs.Prelude.{◌≡◌, true, length};
ghost use Rattle.model.specs.Desk as desk;
ghost use Rattle.protocol.specs.Added.{Wrote};
ghost use Rattle.protocol.specs.Formats.{encode_word};
ghost use Rattle.protocol.specs.Meaning.{part, lies};

use crate::kinds::WordKind;
use crate::line::Line;
use crate::types::Part;

pub fn write_no(out: &mut [u8], at: usize, program: u8) -> Option<usize>
    ensures { Wrote true at (encode_word program desk.no) out.old out.new result }
{
    Line::to(program, WordKind::No).byte(255).write(out, at)
}

pub fn write_done(out: &mut [u8], at: usize, program: u8) -> Option<usize>
    ensures { Wrote true at (encode_word program desk.done) out.old out.new result }
{
    Line::to(program, WordKind::Done).byte(255).write(out, at)
}

pub fn write_made(out: &mut [u8], at: usize, program: u8, window: u8) -> Option<usize>
    ensures { Wrote true at (encode_word program (desk.made window)) out.old out.new result }
{
    Line::to(program, WordKind::Made)
        .byte(window)
        .write(out, at)
}

pub fn write_at(out: &mut [u8], at: usize, program: u8, window: u8, x: i32, y: i32) -> Option<usize>
    ensures { Wrote true at (encode_word program (desk.at window x y)) out.old out.new result }
{
    Line::to(program, WordKind::At)
        .byte(window)
        .far(x)
        .far(y)
        .write(out, at)
}

pub fn write_pressed(
    out: &mut [u8],
    at: usize,
    program: u8,
    window: u8,
    down: bool,
) -> Option<usize>
    ensures { Wrote true at (encode_word program (desk.pressed window down)) out.old out.new result }
{
    Line::to(program, WordKind::Pressed)
        .byte(window)
        .mark(down)
        .write(out, at)
}

pub fn write_typed(out: &mut [u8], at: usize, program: u8, window: u8, key: u32) -> Option<usize>
    ensures { Wrote true at (encode_word program (desk.typed window key)) out.old out.new result }
{
    Line::to(program, WordKind::Typed)
        .byte(window)
        .four(key)
        .write(out, at)
}

pub fn write_pasted(
    out: &mut [u8],
    at: usize,
    program: u8,
    source: &[u8],
    window: u8,
    bytes: Part,
) -> Option<usize>
    ensures { Wrote (lies 1 source.now bytes) at (encode_word program (desk.pasted window (part 1 source.now bytes))) out.old out.new result }
{
    Line::to(program, WordKind::Pasted)
        .byte(window)
        .write_row(out, at, source, bytes, 1)
}
