// What the sending of an event works with; what it means is in specs/.
ghost use Rattle.std.specs.Prelude.{◌<◌};

use few::Few;

// Which sides of windows are asked for: one match on the kind says which fields they are.
#[derive(Clone, Copy)]
pub(crate) enum Axis {
    Across,
    Down,
}

// Places of the desk on one axis: from `from` up to `to`, which is left out.
#[derive(Clone, Copy)]
pub(crate) struct Side {
    pub(crate) from: i32,
    pub(crate) to: i32,
}

// The edges so far, in rising order, on a screen that ends at `limit`. 255 windows have 510 edges, a window as it is after an event and a
// painted box have four, and the end of the screen comes behind them.
#[derive(Clone, Copy)]
pub(crate) struct Edges {
    pub(crate) places: Few<u16, 515>,
    pub(crate) limit: u16,
}

// A box on the desk. It is not geometry's Rect: its places may lie before 0, and a side of it is passed on alone.
#[derive(Clone, Copy)]
pub(crate) struct Placed {
    pub(crate) across: Side,
    pub(crate) down: Side,
}

#[derive(Clone, Copy)]
pub(crate) enum How {
    // another window is in front than before
    Turned,
    // that, or the window is in front and came from another place
    Moved,
    // the window is in front within the area
    Painted,
}

// What an event damages: the window that it is about, and the area of it that is painted, which has no dots at other events.
#[derive(Clone, Copy)]
pub(crate) struct Hurt {
    pub(crate) how: How,
    pub(crate) window: u8,
    pub(crate) area: Placed,
}

// A dot of the screen whose column and row are places of the desk.
#[derive(Clone, Copy)]
pub(crate) struct Dot {
    pub(crate) i: u16,
    pub(crate) j: u16,
    ghost across: { i < 32768 },
    ghost down: { j < 32768 },
}
