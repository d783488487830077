// The stacking order in the lent work.
ghost use Rattle.std.specs.Prelude.{◌≡◌, ◌≤◌, length, is_some, Some, None, nat_eq, slice_index, slice_index_or};
ghost use Rattle.model.specs.Basics.{bit};
ghost use Rattle.few.specs.Held.{held};
ghost use Rattle.stack.specs.View.{slots_of, order_of, numbered};
ghost use Rattle.layout.specs.Head.{bytes_in, orderly, each, order_at, word};
ghost use Rattle.layout.specs.Loads.{Tallied, Hand, Handed};

use crate::bytes;
use crate::head::{HANDS, Head, ORDER};
use few::Few;
use halves::halves;
use stack::state::{Stack, Window};

// Reads an order of `count` numbers.
pub(crate) fn load_order(head: &Head, count: usize) -> Few<u8, 255>
    requires { count ≤ 255 }
    ensures { held result ≡ bytes_in head.now.work.now order_at count }
{
    bytes::load_bytes(head.work, ORDER, count)
}

// How often each number stands in the order, or nothing where one is too high.
fn tally(s: &Stack) -> Option<[u8; 255]>
    ensures { Tallied s.now.limit (order_of s.now) result }
{
    let mut seen = [0; 255];
    for n in s.order.as_slice() {
        let n = usize::from(*n);
        if n >= s.limit {
            return None;
        }
        seen[n] += 1;
    }
    Some(seen)
}

// How often a number has to stand in the order.
fn times_wanted(slot: Option<Window>) -> u8
    ensures { result ≡ bit (is_some slot) }
{
    u8::from(slot.is_some())
}

// Whether each window that is there was seen once, and no other.
fn seen_once(s: &Stack, seen: &[u8]) -> bool
    requires { length seen.now ≡ 255 }
    ensures { result ≡ each (λ n. nat_eq (slice_index seen.now n) (bit (is_some (slice_index_or (slots_of s.now) n None)))) s.now.limit }
{
    (0..s.limit).all(|n| seen[n] == times_wanted(s.slot(n)))
}

// Whether each window that is there stands in the order once, and no other.
pub(crate) fn order_good(s: &Stack) -> bool
    ensures { result ≡ orderly (slots_of s.now) (order_of s.now) }
{
    let Some(seen) = tally(s) else {
        return false;
    };
    seen_once(s, &seen)
}

// A number from what is stored of it: one more, or 0.
pub(crate) fn number(k: u16) -> Option<u8>
    requires { k ≤ 256 }
    ensures { numbered result ≡ k }
{
    k.checked_sub(1).map(|n| n as u8)
}

// The window that has the keys or the pointer, from what is stored of its number, or nothing where it is not there.
fn load_hand(s: &Stack, k: u16) -> Option<Option<u8>>
    ensures { Hand (slots_of s.now) k result }
{
    if k > 256 {
        return None;
    }
    let Some(n) = number(k) else {
        return Some(None);
    };
    s.window(n).map(|_| Some(n))
}

// The windows that have the keys and the pointer.
pub(crate) fn load_hands(head: &Head, s: &Stack) -> Option<(Option<u8>, Option<u8>)>
    ensures { Handed (slots_of s.now) (word head.now.work.now 7) result }
{
    let (keys, held) = halves(head.work[HANDS]);
    Some((load_hand(s, keys)?, load_hand(s, held)?))
}
