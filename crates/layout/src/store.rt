// Writes the sizes and the state into the head of a lent work.
ghost use Rattle.std.specs.Prelude.{◌≡◌, ℕ, ◌<◌, ◌≤◌, length, slice_index};
ghost use Rattle.stack.specs.View.{numbered};
ghost use Rattle.layout.specs.Sizes.{sizes_of};
ghost use Rattle.layout.specs.Stored.{Fronted, Storing};

use crate::sizes::Sizes;
use crate::state::State;
use crate::{bytes, entry, head, table};
use halves::word;

// A number as it is stored: one more, or 0.
fn plus_one(n: Option<u8>) -> u16
    ensures value { result ≡ numbered n }
    ensures small { result ≤ 256 }
{
    n.map_or(0, |n| u16::from(n) + 1)
}

// The words before the order.
fn front_words(z: Sizes, s: &State) -> [u32; 10]
    ensures { Fronted z s.now result }
{
    let pointer = entry::place_word(s.x, s.y);
    let hands = word(plus_one(s.keys), plus_one(s.held));
    let clip = word(s.clip.bytes.len as u16, plus_one(s.clip.owner));
    let count = s.stack.order.len as u32;
    [
        z.wide, z.high, z.windows, z.programs, z.side, z.dots, pointer, hands, clip, count,
    ]
}

// Writes the first words; all behind them stay as they are.
fn store_front(front: &[u32], work: &mut [u32])
    requires { length front.now ≤ length work.old }
    ensures here { (k : ℕ) → k < length front.now → slice_index work.new k ≡ slice_index front.now k }
    ensures rest { (k : ℕ) → length front.now ≤ k → slice_index work.new k ≡ slice_index work.old k }
{
    let n = front.len();
    work[0..n].copy_from_slice(front);
}

// Writes the sizes and the state into the head; false, and nothing is written, where the work is shorter than that.
pub fn store(z: Sizes, s: &State, work: &mut [u32]) -> bool
    ensures { Storing (sizes_of z) s.now work.old work.new result }
{
    if work.len() < head::END {
        return false;
    }
    table::store_table(&s.stack, work);
    bytes::store_bytes(s.clip.bytes.as_slice(), work, head::CLIP_BYTES);
    bytes::store_bytes(s.stack.order.as_slice(), work, head::ORDER);
    let front = front_words(z, s);
    store_front(&front, work);
    true
}
