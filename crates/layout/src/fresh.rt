// The state that a start makes.
ghost use Rattle.std.specs.Prelude.{◌≡◌, ℕ, ◌≤◌, List};
ghost use Rattle.model.specs.Desk.{Sizes, empty};
ghost use Rattle.model.specs.Promise.{FitsSizes};
ghost use Rattle.stack.specs.View.{slots_of};
ghost use Rattle.stack.specs.Packed.{Packed};
ghost use Rattle.layout.specs.State.{desk_of, Good};

use crate::state::{Clipboard, State};
use few::Few;
use stack::state::Stack;

impl State {
    // No windows, of which so many can be made, and nothing offered.
    pub fn new(windows: u8) -> State
        ensures desk { (z : Sizes) → z.windows ≡ windows → (p : List ℕ) → desk_of result p ≡ empty z }
        ensures good { (z : Sizes) (size : ℕ) → z.windows ≡ windows → FitsSizes z → z.dots ≤ size → Good z result size }
        ensures packed { Packed 0 (slots_of result.stack) }
        ensures limit { result.stack.limit ≡ windows }
    {
        let clip = Clipboard {
            owner: None,
            bytes: Few::new(0),
        };
        State {
            stack: Stack::new(windows),
            x: 0,
            y: 0,
            keys: None,
            held: None,
            clip,
        }
    }
}
