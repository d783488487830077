// The state alone; what it means is in specs/View.antt.
ghost use Rattle.std.specs.Prelude.{◌≡◌, ◌≤◌, length};

use few::Few;

// A window that is there: the program that owns it, whether it is shown, where its upper left dot lies on the desk, its size,
// and where its picture begins in the lent pictures. The picture's rows follow each other without a gap.
#[derive(Clone, Copy)]
pub struct Window {
    pub owner: u8,
    pub shown: bool,
    pub x: i16,
    pub y: i16,
    pub wide: u16,
    pub high: u16,
    pub at: usize,
}

// The windows by number, of which the first `limit` can be made, and the order, from the back to the front. (The windows are no short list of few:
// numbers are kept, and those without a window lie between.)
// Contracts say of limit, slots and order one by one what stays: a proof above takes one of them, and a joint fact would have to be opened for it.
#[derive(Clone, Copy)]
pub struct Stack {
    pub limit: usize,
    pub windows: [Option<Window>; 255],
    pub order: Few<u8, 255>,
    ghost low: { limit ≤ 255 },
    ghost all: { length windows ≡ 255 },
}
