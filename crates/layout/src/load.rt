// The state that the head of a lent work holds.
ghost use Rattle.std.specs.Prelude.{◌≡◌, ◌≤◌};
ghost use Rattle.layout.specs.Sizes.{sizes_of};
ghost use Rattle.layout.specs.Head.{sizes_in};
ghost use Rattle.layout.specs.Loads.{Sized, Stacked, Loaded, load_refusal};
ghost use Rattle.layout.specs.Refusals.{numbered_one};

use crate::head::{COUNT, Head, POINTER};
use crate::sizes::{Refusal, Sizes, Slice};
use crate::state::State;
use crate::{clip, entry, order, table};
use stack::state::Stack;

// The sizes, where they are in their ranges and the lent memory has room for them.
fn load_sizes(head: &Head, pictures: usize) -> Option<Sizes>
    ensures { Sized head.now.work.now pictures result }
{
    let z = head.sizes();
    z.start_refusal(pictures, head.work.len())
        .is_none()
        .then_some(z)
}

// The windows and their order, where they are sound.
fn load_stack(head: &Head, z: Sizes) -> Option<Stack>
    requires sizes { sizes_of z ≡ sizes_in head.now.work.now }
    requires few { z.windows ≤ 255 }
    ensures { Stacked head.now.work.now result }
{
    let windows = z.windows as u8;
    let count = head.work[COUNT] as usize;
    if count > 255 {
        return None;
    }
    if !table::entries_good(head, windows, z) {
        return None;
    }
    let mut s = table::load_table(head, windows);
    s.order = order::load_order(head, count);
    if !order::order_good(&s) {
        return None;
    }
    if s.area_used() > z.dots as u64 {
        return None;
    }
    Some(s)
}

// Why nothing can be loaded: the pictures are too short for the sizes in the head, or the work is none that a start has made.
pub fn load_refusal(work: &[u32], pictures: usize) -> Refusal
    ensures { numbered_one result ≡ load_refusal work.now pictures }
{
    let Some(head) = Head::of(work) else {
        return Refusal::Short(Slice::Work);
    };
    let z = head.sizes();
    if z.refusal().is_some() || z.dots as usize <= pictures {
        return Refusal::Short(Slice::Work);
    }
    Refusal::Short(Slice::Pictures)
}

// The sizes and the state that the work holds, for pictures of so many dots; nothing where no start and events can have made it.
pub fn load(work: &[u32], pictures: usize) -> Option<(Sizes, State)>
    ensures { Loaded work.now pictures result }
{
    let head = Head::of(work)?;
    let z = load_sizes(&head, pictures)?;
    let stack = load_stack(&head, z)?;
    let clip = clip::load_clip(&head)?;
    let (keys, held) = order::load_hands(&head, &stack)?;
    let (x, y) = entry::load_place(head.work[POINTER]);
    Some((
        z,
        State {
            stack,
            x,
            y,
            keys,
            held,
            clip,
        },
    ))
}
