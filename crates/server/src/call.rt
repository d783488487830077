// A call: its events, one after another, on lent memory.
ghost use Rattle.std.specs.Prelude.{◌≡◌, ◌+◌, ◌^◌, ◌<◌, ◌≤◌, true, length, Some, None};
ghost use Rattle.protocol.specs.Meaning.{built_of};
ghost use Rattle.layout.specs.Budget.{BudgetOf};
ghost use Rattle.layout.specs.Refusals.{numbered, numbered_one};
ghost use Rattle.layout.specs.Sizes.{sizes_of};
ghost use Rattle.layout.specs.Sizes.{built as built_kinds};
ghost use Rattle.layout.specs.State.{Good, desk_of};
ghost use Rattle.server.specs.Course.{read_call};
ghost use Rattle.server.specs.Next.{Next};
ghost use Rattle.server.specs.Promise.{Ran, Promised};

use crate::outcome::Outcome;
use crate::step::{Written, step};
use layout::budget::{Budget, Lent, Used};
use layout::load::{load, load_refusal};
use layout::sizes::{Refusal, Sizes, Slice};
use layout::state::State;
use layout::store::store;
use protocol::{Event, Kinds};

// What is set apart for one event more.
fn one_more(budget: Budget, used: Used) -> Used
    requires { (used.sent + budget.sent < 2 ^ 64) × (used.words + budget.words < 2 ^ 64) }
    ensures sent { result.sent ≡ used.sent + budget.sent }
    ensures words { result.words ≡ used.words + budget.words }
{
    Used {
        sent: used.sent + budget.sent,
        words: used.words + budget.words,
    }
}

// The next event of a call and where it ends, or why the call ends before it: there is no room for what an event may send and tell, or its bytes are
// in fault. (A closure of `map_err` would not know that the place of a fault fits.)
fn next_event(
    call: &[u8],
    at: usize,
    z: Sizes,
    lent: Lent,
    used: Used,
) -> Result<(Event, usize), Refusal>
    requires { z.programs ≤ 64 }
    ensures { Next (sizes_of z) call.now at lent used result }
{
    if let Some(no) = z.event_refusal(lent, used) {
        return Err(no);
    }
    match protocol::read(call, at, z.programs as u8, Kinds::all()) {
        Ok(found) => Ok(found),
        Err(fault) => Err(Refusal::Fault {
            place: fault.place as u32,
        }),
    }
}

// The events of a call, up to the first that is refused. (What is lent stays apart here, as makers lend it: a struct would be made of the four slices
// only to be taken apart by the next call.)
fn events(
    call: &[u8],
    z: Sizes,
    budget: Budget,
    lent: Lent,
    s: &mut State,
    pictures: &mut [u32],
    sent: &mut [u32],
    words: &mut [u8],
) -> Outcome
    requires good { Good (sizes_of z) s.old (length pictures.old) }
    requires budget { BudgetOf (sizes_of z) budget }
    requires sent { lent.sent ≡ length sent.old }
    requires words { lent.words ≡ length words.old }
    ensures good { Good (sizes_of z) s.new (length pictures.new) }
    ensures ran { Ran (sizes_of z) (read_call (sizes_of z) call.now lent) (desk_of s.old pictures.old) sent.old words.old (desk_of s.new pictures.new) sent.new words.new result }
{
    let mut used = Used { sent: 0, words: 0 };
    let mut out = Written { sent: 0, words: 0 };
    let mut count = 0;
    let mut at = 0;
    // each event says where the next begins
    'events: while at < call.len() {
        match next_event(call, at, z, lent, used) {
            Ok((e, end)) => {
                out = step(z, s, pictures, call, e, sent, words, out);
                used = one_more(budget, used);
                count += 1;
                at = end;
            }
            Err(no) => return out.outcome(count, at, Some(no)),
        }
    }
    out.outcome(count, at, None)
}

// The call is refused whole.
fn refused(no: Refusal) -> Outcome
    ensures why { numbered result.refusal ≡ Some (numbered_one no) }
    ensures none { (result.events ≡ 0) × (result.read ≡ 0) × (result.sent ≡ 0) × (result.words ≡ 0) }
{
    Outcome {
        events: 0,
        read: 0,
        sent: 0,
        words: 0,
        refusal: Some(no),
    }
}

// THE CALL: the events of the bytes, one after another, on lent memory.
pub fn event(
    call: &[u8],
    pictures: &mut [u32],
    work: &mut [u32],
    sent: &mut [u32],
    words: &mut [u8],
) -> Outcome
    ensures { Promised call.now pictures.old work.old sent.old words.old pictures.new work.new sent.new words.new result }
{
    let Some((z, loaded)) = load(work, pictures.len()) else {
        return refused(load_refusal(work, pictures.len()));
    };
    let mut s = loaded;
    let Ok(budget) = z.budget() else {
        return refused(Refusal::Short(Slice::Work));
    };
    let lent = Lent {
        pictures: pictures.len(),
        work: work.len(),
        sent: sent.len(),
        words: words.len(),
    };
    let r = events(call, z, budget, lent, &mut s, pictures, sent, words);
    let _ = store(z, &s, work);
    r
}
