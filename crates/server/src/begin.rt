// The start of a desk in lent memory.
ghost use Rattle.layout.specs.Sizes.{sizes_of};
ghost use Rattle.server.specs.Promise.{Started};

use layout::sizes::{Refusal, Sizes};
use layout::state::State;
use layout::store::store;

// THE START: an empty desk of these sizes, whatever the lent memory held; refused where a size is out of its range or a slice too short, and then
// nothing changes.
pub fn start(z: Sizes, pictures: &mut [u32], work: &mut [u32]) -> Result<(), Refusal>
    ensures { Started (sizes_of z) pictures.old work.old pictures.new work.new result }
{
    if let Some(no) = z.start_refusal(pictures.len(), work.len()) {
        return Err(no);
    }
    let s = State::new(z.windows as u8);
    let _ = store(z, &s, work);
    Ok(())
}
