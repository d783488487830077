// The three words of a window in the lent work.
ghost use Rattle.std.specs.Prelude.{◌≡◌, ℕ, ◌+◌, ◌*◌, ◌<◌, ◌≤◌, true, ◌&&◌, ◌⊎◌, length, pos, ◌-ℤ◌, slice_index};
ghost use Rattle.layout.specs.Sizes.{sizes_of};
ghost use Rattle.layout.specs.Head.{entry, entry_at, table_at, low, high};
ghost use Rattle.layout.specs.Head.{place as place_of, flagged as flagged_of, shaped as shaped_of};
ghost use Rattle.layout.specs.Stored.{bare};

use crate::head::{Head, TABLE};
use crate::sizes::Sizes;
use halves::{halves, word};
use stack::state::Window;

// The three words of a window.
#[derive(Clone, Copy)]
struct Entry {
    flags: u32,
    place: u32,
    sides: u32,
}

// A place on the desk from half a word.
fn unbias(v: u16) -> i16
    ensures { result ≡ pos v -ℤ pos 32768 }
{
    i16::MIN.saturating_add_unsigned(v)
}

fn bias(v: i16) -> u16
    ensures { v ≡ pos result -ℤ pos 32768 }
{
    v.abs_diff(i16::MIN)
}

// The place that a word holds. (A pair: it goes at once into the two fields of a window or of the state.)
pub(crate) fn load_place(w: u32) -> (i16, i16)
    ensures across { result.0 ≡ place_of (low w) }
    ensures down { result.1 ≡ place_of (high w) }
{
    let (x, y) = halves(w);
    (unbias(x), unbias(y))
}

// The word of a place.
pub(crate) fn place_word(x: i16, y: i16) -> u32
    ensures across { place_of (low result) ≡ x }
    ensures down { place_of (high result) ≡ y }
{
    word(bias(x), bias(y))
}

// The window that three words hold.
fn unpack(e: Entry) -> Option<Window>
    ensures { result ≡ entry e.flags e.place e.sides }
{
    if halves(e.flags).1 == 0 {
        return None;
    }
    let [owner, shown, _, _] = e.flags.to_le_bytes();
    let (x, y) = load_place(e.place);
    let (wide, high) = halves(e.sides);
    Some(Window {
        owner,
        shown: shown == 1,
        x,
        y,
        wide,
        high,
        at: 0,
    })
}

// The three words of a window.
fn pack(slot: Option<Window>) -> Entry
    ensures window { entry result.flags result.place result.sides ≡ bare slot }
    ensures flags { flagged_of result.flags ≡ true }
{
    let Some(w) = slot else {
        return Entry {
            flags: 0,
            place: 0,
            sides: 0,
        };
    };
    Entry {
        flags: u32::from_le_bytes([w.owner, u8::from(w.shown), 1, 0]),
        place: place_word(w.x, w.y),
        sides: word(w.wide, w.high),
    }
}

// Whether the flags of an entry are each 0 or 1.
fn flagged(flags: u32) -> bool
    ensures { result ≡ flagged_of flags }
{
    matches!(flags.to_le_bytes(), [_, _, 0, 0] | [_, 0 | 1, 1, 0])
}

// Whether a window, if there is one, has an owner and sides that the sizes allow.
fn shaped(z: Sizes, slot: Option<Window>) -> bool
    ensures { result ≡ shaped_of (sizes_of z) slot }
{
    slot.is_none_or(|w| {
        u32::from(w.owner) < z.programs
            && (1..=z.side).contains(&u32::from(w.wide))
            && (1..=z.side).contains(&u32::from(w.high))
    })
}

// The window n of the table.
pub(crate) fn load_entry(head: &Head, n: u8) -> Option<Window>
    ensures { result ≡ entry_at head.now.work.now table_at n }
{
    let at = TABLE + 3 * usize::from(n);
    unpack(Entry {
        flags: head.work[at],
        place: head.work[at + 1],
        sides: head.work[at + 2],
    })
}

// Whether the entry of the window n is as it has to be.
pub(crate) fn entry_good(head: &Head, n: u8, z: Sizes) -> bool
    ensures { result ≡ (flagged_of (slice_index head.now.work.now (table_at + 3 * n)) && shaped_of (sizes_of z) (entry_at head.now.work.now table_at n)) }
{
    flagged(head.work[TABLE + 3 * usize::from(n)]) && shaped(z, load_entry(head, n))
}

// The window n of the table is this one from now on; all other words stay as they are.
pub(crate) fn store_entry(work: &mut [u32], n: usize, slot: Option<Window>)
    requires { table_at + 3 * n + 3 ≤ length work.old }
    ensures window { entry_at work.new table_at n ≡ bare slot }
    ensures flags { flagged_of (slice_index work.new (table_at + 3 * n)) ≡ true }
    ensures rest { (k : ℕ) → (k < table_at + 3 * n) ⊎ (table_at + 3 * n + 3 ≤ k) → slice_index work.new k ≡ slice_index work.old k }
{
    let e = pack(slot);
    work[TABLE + 3 * n] = e.flags;
    work[TABLE + 3 * n + 1] = e.place;
    work[TABLE + 3 * n + 2] = e.sides;
}
