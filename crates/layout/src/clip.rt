// The clipboard in the lent work.
ghost use Rattle.layout.specs.Head.{clip_at, word};
ghost use Rattle.layout.specs.Loads.{Clipping};

use crate::head::{CLIP, CLIP_BYTES, Head};
use crate::state::Clipboard;
use crate::{bytes, order};
use halves::halves;

// The clipboard, from its word and its bytes.
pub(crate) fn load_clip(head: &Head) -> Option<Clipboard>
    ensures { Clipping head.now.work.now clip_at (word head.now.work.now 8) result }
{
    let (len, owner) = halves(head.work[CLIP]);
    if len > 4096 || owner > 256 {
        return None;
    }
    Some(Clipboard {
        owner: order::number(owner),
        bytes: bytes::load_bytes(head.work, CLIP_BYTES, usize::from(len)),
    })
}
