// The kinds of events and of words, in the order of their numbers.
ghost use Rattle.std.specs.Prelude.{◌≡◌, ℕ, ◌≤◌};
ghost use Rattle.protocol.specs.Numbers.{kind_number, word_number};

#[derive(Clone, Copy, PartialEq, Eq)]
pub enum Kind {
    Make,
    Close,
    Move,
    Raise,
    Show,
    Fill,
    Put,
    Copy,
    Offer,
    Point,
    Press,
    Key,
    Paste,
}

#[derive(Clone, Copy, PartialEq, Eq)]
pub enum WordKind {
    No,
    Done,
    Made,
    At,
    Pressed,
    Typed,
    Pasted,
}

impl Kind {
    pub fn number(self) -> u8
        ensures { result ≡ kind_number self }
    {
        self as u8
    }

    // The kind that has this number, if there is one.
    pub fn of(number: u8) -> Option<Kind>
        ensures { elim result [ None ↦ 13 ≤ number | Some k ↦ kind_number k ≡ number ] }
    {
        match number {
            0 => Some(Kind::Make),
            1 => Some(Kind::Close),
            2 => Some(Kind::Move),
            3 => Some(Kind::Raise),
            4 => Some(Kind::Show),
            5 => Some(Kind::Fill),
            6 => Some(Kind::Put),
            7 => Some(Kind::Copy),
            8 => Some(Kind::Offer),
            9 => Some(Kind::Point),
            10 => Some(Kind::Press),
            11 => Some(Kind::Key),
            12 => Some(Kind::Paste),
            _ => None,
        }
    }
}

impl WordKind {
    pub fn number(self) -> u8
        ensures { result ≡ word_number self }
    {
        self as u8
    }

    // The kind of word that has this number, if there is one.
    pub fn of(number: u8) -> Option<WordKind>
        ensures { elim result [ None ↦ 7 ≤ number | Some k ↦ word_number k ≡ number ] }
    {
        match number {
            0 => Some(WordKind::No),
            1 => Some(WordKind::Done),
            2 => Some(WordKind::Made),
            3 => Some(WordKind::At),
            4 => Some(WordKind::Pressed),
            5 => Some(WordKind::Typed),
            6 => Some(WordKind::Pasted),
            _ => None,
        }
    }
}
