// What the person does: the pointer, the button, keys and the wish to paste; and the clipboard that programs offer for it.
ghost use Rattle.std.specs.Prelude.{◌≡◌, ℕ, ◌≤◌, true, false, List, length, ◌-ℤ◌};
ghost use Rattle.few.specs.Held.{held};
ghost use Rattle.model.specs.Desk.{clamp};
ghost use Rattle.model.specs.Desk.{offer as offering};
ghost use Rattle.model.specs.Desk.{point as pointing};
ghost use Rattle.model.specs.Desk.{press as pressing};
ghost use Rattle.model.specs.Desk.{key as typing};
ghost use Rattle.model.specs.Desk.{paste as pasting};
ghost use Rattle.protocol.specs.Meaning.{part, lies};
ghost use Rattle.model.specs.System.{taken};
ghost use Rattle.layout.specs.Sizes.{sizes_of};
ghost use Rattle.layout.specs.State.{desk_of, Good};
ghost use Rattle.desktop.specs.Does.{DoesUnpainted};
ghost use Rattle.desktop.specs.Person.{Known, Heard, Copied, NextClip};

use crate::told::{Told, answer};
use few::Few;
use layout::sizes::Sizes;
use layout::state::{Clipboard, State};
use protocol::{Part, Word};
use stack::state::Window;

// The window of a number, where both are there.
fn known(s: &State, number: Option<u8>) -> Option<(u8, Window)>
    ensures { Known s.now number result }
{
    let n = number?;
    Some((n, s.stack.window(n)?))
}

// The window that has the keys is told.
pub fn key(s: &State, key: u32) -> Option<Told>
    ensures { (z : Sizes) → DoesUnpainted (sizes_of z) (typing key) s.now s.now result }
{
    let (n, w) = known(s, s.keys)?;
    Some(Told {
        program: w.owner,
        word: Word::Typed { window: n, key },
    })
}

// Where the clipboard's bytes lie.
fn whole(clip: &Clipboard) -> Part
    ensures value { part 1 (held clip.now.bytes) result ≡ held clip.now.bytes }
    ensures there { lies 1 (held clip.now.bytes) result ≡ true }
{
    Part {
        from: 0,
        count: clip.bytes.len as u16,
    }
}

// The window that has the keys is told the clipboard's bytes, if an offer was ever taken.
pub fn paste(s: &State) -> Option<Told>
    ensures { (z : Sizes) → DoesUnpainted (sizes_of z) pasting s.now s.now result }
{
    let (n, w) = known(s, s.keys)?;
    s.clip.owner?;
    let bytes = whole(&s.clip);
    Some(Told {
        program: w.owner,
        word: Word::Pasted { window: n, bytes },
    })
}

// The button goes down: the window in front at the pointer has the keys and holds the pointer; if there is none nobody has.
fn press_down(s: &mut State) -> Option<Told>
    ensures { (z : Sizes) → DoesUnpainted (sizes_of z) (pressing true) s.old s.new result }
{
    let front = s.stack.front_window(s.x, s.y);
    let n = front.map(|(n, _)| n);
    s.keys = n;
    s.held = n;
    let (n, w) = front?;
    Some(Told {
        program: w.owner,
        word: Word::Pressed {
            window: n,
            down: true,
        },
    })
}

// The button comes up: the window that holds the pointer is told, and nobody holds it.
fn press_up(s: &mut State) -> Option<Told>
    ensures { (z : Sizes) → DoesUnpainted (sizes_of z) (pressing false) s.old s.new result }
{
    let (n, w) = known(s, s.held)?;
    s.held = None;
    Some(Told {
        program: w.owner,
        word: Word::Pressed {
            window: n,
            down: false,
        },
    })
}

// The button goes down or comes up.
pub fn press(s: &mut State, down: bool) -> Option<Told>
    ensures { (z : Sizes) → DoesUnpainted (sizes_of z) (pressing down) s.old s.new result }
{
    if down { press_down(s) } else { press_up(s) }
}

// Who is told where the pointer is: the window that holds it, or else the one in front there.
fn listener(s: &State, x: i16, y: i16) -> Option<(u8, Window)>
    ensures { Heard s.now x y result }
{
    match s.held {
        None => s.stack.front_window(x, y),
        held => known(s, held),
    }
}

// The place a, or else the nearest of the n places from 0 on, of which a screen has 4,096 at most.
fn nearest_dot(a: i16, n: u32) -> i16
    ensures { n ≤ 4096 → result ≡ clamp a n }
{
    // No `try_from`: it would add a branch that no place takes.
    geometry::nearest(a, n.min(4096) as u16)
}

// How far the place a lies from b.
fn offset(a: i16, b: i16) -> i32
    ensures { result ≡ a -ℤ b }
{
    i32::from(a) - i32::from(b)
}

// The pointer is at a place, or at the dot of the screen that is nearest to it.
pub fn point(z: Sizes, s: &mut State, x: i16, y: i16) -> Option<Told>
    ensures { DoesUnpainted (sizes_of z) (pointing x y) s.old s.new result }
{
    let px = nearest_dot(x, z.wide);
    let py = nearest_dot(y, z.high);
    let heard = listener(s, px, py);
    s.x = px;
    s.y = py;
    let (n, w) = heard?;
    let word = Word::At {
        window: n,
        x: offset(px, w.x),
        y: offset(py, w.y),
    };
    Some(Told {
        program: w.owner,
        word,
    })
}

// A clipboard with the bytes of a call that a program offers; None where the call has no such bytes, or they are too many.
fn offered(call: &[u8], program: u8, part: Part) -> Option<Clipboard>
    ensures { lies 1 call.now part ≡ true → part.count ≤ 4096 → Copied call.now program part result }
{
    let bytes = call.get(part.from..)?.get(..usize::from(part.count))?;
    Some(Clipboard {
        owner: Some(program),
        bytes: Few::from_slice(bytes, 0)?,
    })
}

// The clipboard that a program's offer makes, if a window of the program has the keys and the bytes are at most 4,096.
fn next_clip(s: &State, call: &[u8], program: u8, bytes: Part) -> Option<Clipboard>
    ensures { lies 1 call.now bytes ≡ true → (z : Sizes) (p : List ℕ) → Good (sizes_of z) s.now (length p) → NextClip (taken (sizes_of z) (desk_of s.now p) (offering program (part 1 call.now bytes))) program (part 1 call.now bytes) result }
{
    let (_, w) = known(s, s.keys)?;
    if w.owner != program || bytes.count > 4096 {
        return None;
    }
    offered(call, program, bytes)
}

// The clipboard holds the bytes, if a window of the program has the keys and they are at most 4,096.
pub fn offer(s: &mut State, call: &[u8], program: u8, bytes: Part) -> Option<Told>
    ensures { lies 1 call.now bytes ≡ true → (z : Sizes) → DoesUnpainted (sizes_of z) (offering program (part 1 call.now bytes)) s.old s.new result }
{
    let Some(clip) = next_clip(s, call, program, bytes) else {
        return answer(program, false);
    };
    s.clip = clip;
    answer(program, true)
}
