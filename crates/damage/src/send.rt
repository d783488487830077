// What an event sends.
ghost use Rattle.std.specs.Prelude.{ℕ, ◌+◌, ◌≤◌, List, length};
ghost use Rattle.protocol.specs.Meaning.{meaning};
ghost use Rattle.layout.specs.Sizes.{sizes_of};
ghost use Rattle.layout.specs.State.{desk_of, Good};
ghost use Rattle.layout.specs.Budget.{sent_room};
ghost use Rattle.damage.specs.Encode.{encode, Sent};
ghost use Rattle.damage.specs.Cover.{sends_at};
ghost use Rattle.damage.specs.Step.{Step, Stepped};

use crate::scene::Scene;
use crate::types::Axis;
use crate::{edges, hurt};
use layout::sizes::Sizes;
use layout::state::State;
use protocol::Event;

// Writes what an event sends, from the word `at` on: the cells of the grid in which something may look different, each with its dots.
// Answers where it ends. (Parameters as the event's step has them; what the functions below share of them is a scene.)
pub fn send(
    z: Sizes,
    e: Event,
    taken: bool,
    before: &State,
    after: &State,
    pictures: &[u32],
    sent: &mut [u32],
    at: usize,
) -> usize
    requires old { Good (sizes_of z) before.now (length pictures.now) }
    requires new { Good (sizes_of z) after.now (length pictures.now) }
    requires room { at + sent_room (sizes_of z) ≤ length sent.old }
    requires step { Stepped z e taken before.now after.now pictures.now }
    ensures sent { (bs p : List ℕ) → Step z e taken before.now after.now pictures.now bs p → Sent at result (encode (sends_at (sizes_of z) (desk_of before.now p) (meaning bs e))) sent.old sent.new }
    ensures low { result ≤ at + sent_room (sizes_of z) }
{
    let Some(hurt) = hurt::decide(e, taken, before) else {
        return at;
    };
    let area = hurt.area;
    let more = after.stack.window(hurt.window);
    let xs = edges::lines(
        Axis::Across,
        &before.stack,
        area.across,
        more,
        z.wide as u16,
    );
    let ys = edges::lines(Axis::Down, &before.stack, area.down, more, z.high as u16);
    let scene = Scene {
        hurt,
        before,
        after,
        pictures,
        xs: xs.as_slice(),
        ys: ys.as_slice(),
    };
    scene.send_cells(sent, at)
}
