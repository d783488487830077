// The two words before a box's dots, as they are read and written.
ghost use Rattle.std.specs.Prelude.{◌≡◌, ◌+◌, ◌*◌, ◌/◌, ◌%◌};
ghost use Rattle.damage.specs.Screen.{head_of, lies_on};

use halves::{halves, word};

// The size of a screen.
#[derive(Clone, Copy)]
pub(crate) struct Size {
    pub(crate) wide: u16,
    pub(crate) high: u16,
}

// What stands before a box's dots: its place on the screen, and how many dots it has across and down.
// (Not protocol's Patch, whose place is a window's own.)
#[derive(Clone, Copy)]
pub(crate) struct Head {
    pub(crate) x: u16,
    pub(crate) y: u16,
    pub(crate) wide: u16,
    pub(crate) high: u16,
}

impl Size {
    // How many dots the screen has.
    pub(crate) fn dots(self) -> usize
        ensures { result ≡ self.wide * self.high }
    {
        usize::from(self.wide) * usize::from(self.high)
    }
}

impl Head {
    // The head in two words: its place, and its size.
    pub(crate) fn from_words(place: u32, size: u32) -> Head
        ensures { result ≡ head_of place size }
    {
        let (x, y) = halves(place);
        let (wide, high) = halves(size);
        Head { x, y, wide, high }
    }

    // Those two words.
    pub(crate) fn words(self) -> (u32, u32)
        ensures place { result.0 ≡ self.x + 65536 * self.y }
        ensures size { result.1 ≡ self.wide + 65536 * self.high }
    {
        (word(self.x, self.y), word(self.wide, self.high))
    }

    // How many dots the box has.
    pub(crate) fn dots(self) -> usize
        ensures { result ≡ self.wide * self.high }
    {
        usize::from(self.wide) * usize::from(self.high)
    }

    // Whether the box has dots and lies on a screen of this size.
    pub(crate) fn lies_on(self, screen: Size) -> bool
        ensures { result ≡ lies_on screen.wide screen.high self }
    {
        self.wide >= 1
            && self.high >= 1
            && usize::from(self.x) + usize::from(self.wide) <= usize::from(screen.wide)
            && usize::from(self.y) + usize::from(self.high) <= usize::from(screen.high)
    }
}
