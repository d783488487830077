// One event, whichever it is.
ghost use Rattle.std.specs.Prelude.{◌≡◌, true, length};
ghost use Rattle.protocol.specs.Meaning.{meaning, had};
ghost use Rattle.layout.specs.Sizes.{sizes_of};
ghost use Rattle.layout.specs.State.{Good};
ghost use Rattle.desktop.specs.Does.{CarriedOut};

use crate::told::Told;
use crate::{paint, person, windows};
use layout::sizes::Sizes;
use layout::state::State;
use protocol::Event;

// Carries an event out that was read from a call, and says what is told. The sizes, the state and the pictures are lent apart, and only `make` needs
// all three; a program and its window stay apart as events and the table have them: a struct for either would be made only to be taken apart.
pub fn carry_out(
    z: Sizes,
    s: &mut State,
    pictures: &mut [u32],
    call: &[u8],
    e: Event,
) -> Option<Told>
    ensures { Good (sizes_of z) s.old (length pictures.old) → had call.now e ≡ true → CarriedOut (sizes_of z) (meaning call.now e) s.old pictures.old s.new pictures.new result }
{
    match e {
        Event::Make {
            program,
            x,
            y,
            wide,
            high,
        } => windows::make(z, s, pictures, program, x, y, wide, high),
        Event::Close { program, window } => windows::close(s, pictures, program, window),
        Event::Move {
            program,
            window,
            x,
            y,
        } => windows::move_to(s, program, window, x, y),
        Event::Raise { program, window } => windows::raise(s, program, window),
        Event::Show {
            program,
            window,
            on,
        } => windows::show(s, program, window, on),
        Event::Fill {
            program,
            window,
            patch,
            colour,
        } => paint::fill(s, pictures, program, window, patch, colour),
        Event::Put {
            program,
            window,
            x,
            y,
            colours,
        } => paint::put(s, pictures, call, program, window, x, y, colours),
        Event::Copy {
            program,
            window,
            patch,
            to_x,
            to_y,
        } => paint::copy(s, pictures, program, window, patch, to_x, to_y),
        Event::Offer { program, bytes } => person::offer(s, call, program, bytes),
        Event::Point { x, y } => person::point(z, s, x, y),
        Event::Press { down } => person::press(s, down),
        Event::Key { key } => person::key(s, key),
        Event::Paste => person::paste(s),
    }
}
