// What makers send and are told, as values.
ghost use Rattle.std.specs.Prelude.{◌≡◌};

// A row by where it lies: `count` elements from the byte `from` of the bytes that it was read from.
// An element is four bytes in a row of colours, and one in a row of bytes.
#[derive(Clone, Copy)]
pub struct Part {
    pub from: usize,
    pub count: u16,
}

// A box of a window's own dots: its upper left dot, and how many dots it has across and down.
#[derive(Clone, Copy, PartialEq, Eq)]
pub struct Patch {
    pub x: u16,
    pub y: u16,
    pub wide: u16,
    pub high: u16,
}

impl Patch {
    // The box of its size at another place.
    pub fn moved_to(self, x: u16, y: u16) -> Patch
        ensures { result ≡ record { x = x; y = y; wide = self.wide; high = self.high } }
    {
        Patch { x, y, ..self }
    }
}

// An event. Those from `Make` to `Offer` come from a program, the others from the person at the desk.
#[derive(Clone, Copy)]
pub enum Event {
    Make {
        program: u8,
        x: i16,
        y: i16,
        wide: u16,
        high: u16,
    },
    Close {
        program: u8,
        window: u8,
    },
    Move {
        program: u8,
        window: u8,
        x: i16,
        y: i16,
    },
    Raise {
        program: u8,
        window: u8,
    },
    Show {
        program: u8,
        window: u8,
        on: bool,
    },
    Fill {
        program: u8,
        window: u8,
        patch: Patch,
        colour: u32,
    },
    Put {
        program: u8,
        window: u8,
        x: u16,
        y: u16,
        colours: Part,
    },
    Copy {
        program: u8,
        window: u8,
        patch: Patch,
        to_x: u16,
        to_y: u16,
    },
    Offer {
        program: u8,
        bytes: Part,
    },
    Point {
        x: i16,
        y: i16,
    },
    Press {
        down: bool,
    },
    Key {
        key: u32,
    },
    Paste,
}

// What a program is told.
#[derive(Clone, Copy)]
pub enum Word {
    No,
    Done,
    Made { window: u8 },
    At { window: u8, x: i32, y: i32 },
    Pressed { window: u8, down: bool },
    Typed { window: u8, key: u32 },
    Pasted { window: u8, bytes: Part },
}

// A row of bytes that is refused: the place of its first byte in fault, counted from the row's first.
#[derive(Clone, Copy)]
pub struct Fault {
    pub place: usize,
}

// Which kinds of events are built, by their numbers.
#[derive(Clone, Copy)]
pub struct Kinds {
    pub built: [bool; 13],
}
