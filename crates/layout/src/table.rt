// The table of windows in the lent work.
ghost use Rattle.std.specs.Prelude.{◌≡◌, ℕ, ◌+◌, ◌*◌, ◌<◌, ◌≤◌, true, ◌&&◌, ◌⊎◌, [], map, length, None, slice_index, slice_index_or};
ghost use Rattle.std.specs.List.{range_with_len};
ghost use Rattle.stack.specs.View.{slots_of, order_of, packed};
ghost use Rattle.layout.specs.Sizes.{sizes_of};
ghost use Rattle.layout.specs.Head.{entry_at, flagged, shaped, each, word, table_at, head_end};
ghost use Rattle.layout.specs.Stored.{bare};

use crate::entry;
use crate::head::Head;
use crate::sizes::Sizes;
use stack::state::Stack;

// Whether the entries of so many windows are as they have to be.
pub(crate) fn entries_good(head: &Head, windows: u8, z: Sizes) -> bool
    ensures { result ≡ each (λ n. flagged (word head.now.work.now (table_at + 3 * n)) && shaped (sizes_of z) (entry_at head.now.work.now table_at n)) windows }
{
    (0..windows).all(|n| entry::entry_good(head, n, z))
}

// The windows of the table, with their pictures one after another, and an empty order.
// (By number, as set_window takes them: of windows written through iter_mut a proof knows nothing.)
pub(crate) fn load_table(head: &Head, count: u8) -> Stack
    ensures slots { slots_of result ≡ packed 0 (map (entry_at head.now.work.now table_at) (range_with_len 0 count)) }
    ensures order { order_of result ≡ [] }
    ensures limit { result.limit ≡ count }
{
    let mut s = Stack::new(count);
    for n in 0..count {
        s.set_window(n, entry::load_entry(head, n));
    }
    s.pack();
    s
}

// Writes the windows into the table; all other words stay as they are.
pub(crate) fn store_table(s: &Stack, work: &mut [u32])
    requires { head_end ≤ length work.old }
    ensures table { (n : ℕ) → n < s.now.limit → entry_at work.new table_at n ≡ bare (slice_index_or (slots_of s.now) n None) }
    ensures flags { (n : ℕ) → n < s.now.limit → flagged (word work.new (table_at + 3 * n)) ≡ true }
    ensures rest { (k : ℕ) → (k < table_at) ⊎ (table_at + 3 * s.now.limit ≤ k) → slice_index work.new k ≡ slice_index work.old k }
{
    for (n, slot) in s.windows[..s.limit].iter().enumerate() {
        entry::store_entry(work, n, *slot);
    }
}
