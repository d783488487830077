// A desk that `desktop` carries out, of which every dot is looked for among all windows.
use desktop::carry::carry_out;
use desktop::look::dot_at;
use layout::sizes::Sizes;
use layout::state::State;
use protocol::{Event, Kinds};
use std::alloc::Global;
use std::test::Fail;

#[derive(Drop)]
pub struct Plain {
    pub sizes: Sizes,
    pub state: State,
    pub pictures: Vec<u32>,
}

impl Plain {
    // An empty desk; what lies in the pictures is of no window.
    pub(super) fn new(heap: Global, sizes: Sizes) -> Result<Plain, Fail> {
        let pictures = vec![in heap; 7u32; sizes.dots as usize]?;
        Ok(Plain {
            sizes,
            state: State::new(sizes.windows.min(255) as u8),
            pictures,
        })
    }

    // How many programs there are.
    pub(super) fn programs(&self) -> u8 {
        self.sizes.programs.min(64) as u8
    }

    // The dot k of the screen, by rows.
    pub(super) fn dot(&self, k: usize) -> u32 {
        let wide = (self.sizes.wide as usize).max(1);
        let i = (k % wide).min(4095) as u16;
        let j = (k / wide).min(4095) as u16;
        dot_at(&self.state, self.pictures.as_slice(), i, j)
    }

    // Carries an event of a call out, and writes what is told behind the `used` bytes of words: where the words end.
    pub(super) fn carry(
        &mut self,
        call: &[u8],
        e: Event,
        words: &mut [u8],
        used: usize,
    ) -> Result<usize, Fail> {
        let clip = self.state.clip.bytes;
        let pictures = self.pictures.as_mut_slice();
        let Some(told) = carry_out(self.sizes, &mut self.state, pictures, call, e) else {
            return Ok(used);
        };
        let bytes = clip.as_slice();
        match protocol::write_word(told.program, told.word, bytes, words, used) {
            Some(n) => Ok(used.saturating_add(n)),
            None => Err(Fail::new("no room for a word")),
        }
    }

    // The events of a call, one after another: where the words end.
    pub(super) fn carry_all(&mut self, call: &[u8], words: &mut [u8]) -> Result<usize, Fail> {
        let mut used = 0;
        let mut at = 0;
        // each event says where the next begins; a test has no measure, so there are as many turns as bytes at most
        for _ in 0..call.len() {
            if at >= call.len() {
                break;
            }
            let Ok((e, end)) = protocol::read(call, at, self.programs(), Kinds::all()) else {
                return Err(Fail::new("a byte in fault"));
            };
            used = self.carry(call, e, words, used)?;
            at = end;
        }
        Ok(used)
    }
}
