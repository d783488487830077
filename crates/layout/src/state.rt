// The state of a desk but for the pictures; what it means is in specs/State.antt.
use few::Few;
use stack::state::Stack;

// The clipboard: the program that offered last, and the bytes. Before the first offer there is no owner.
#[derive(Clone, Copy)]
pub struct Clipboard {
    pub owner: Option<u8>,
    pub bytes: Few<u8, 4096>,
}

// The windows and their order, the pointer, the window that has the keys, the one that holds the pointer while a button is down,
// and the clipboard.
#[derive(Clone, Copy)]
pub struct State {
    pub stack: Stack,
    pub x: i16,
    pub y: i16,
    pub keys: Option<u8>,
    pub held: Option<u8>,
    pub clip: Clipboard,
}
