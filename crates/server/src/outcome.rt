// What a call came to.
use layout::sizes::Refusal;

// How many events were carried out, how many bytes of the call they have, how much of sent (in words of 32 bits) and of words (in bytes) is
// theirs, and why the rest of the call was not read.
#[derive(Clone, Copy)]
pub struct Outcome {
    pub events: usize,
    pub read: usize,
    pub sent: usize,
    pub words: usize,
    pub refusal: Option<Refusal>,
}
