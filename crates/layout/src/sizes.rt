// The sizes of a desk as they are asked for, and why something is refused.
ghost use Rattle.std.specs.Prelude.{◌≡◌, Some, None};
ghost use Rattle.model.specs.Basics.{pick};
ghost use Rattle.layout.specs.Sizes.{sizes_of, size_refusal};
ghost use Rattle.layout.specs.Sizes.{in_range as in_range_of};
ghost use Rattle.layout.specs.Refusals.{numbered, numbered_one, refused, size_number, said};
ghost use Rattle.layout.specs.Ranges.{Ranges};

use std::fmt;

// The sizes of a desk, as they are asked for: any numbers.
#[derive(Clone, Copy)]
pub struct Sizes {
    // the screen, in dots across and down
    pub wide: u32,
    pub high: u32,
    // how many windows and programs there may be
    pub windows: u32,
    pub programs: u32,
    // the longest side of a window
    pub side: u32,
    // the dots of all pictures together
    pub dots: u32,
}

// Which size is out of its range.
#[derive(Clone, Copy, PartialEq, Eq)]
pub enum Size {
    Wide,
    High,
    Windows,
    Programs,
    Side,
    Dots,
}

// Which of the lent slices is too short.
#[derive(Clone, Copy, PartialEq, Eq)]
pub enum Slice {
    Pictures,
    Work,
    Sent,
    Words,
}

// Why something is refused. Its number and place are definitions in specs/Refusals.
#[derive(Clone, Copy, PartialEq, Eq)]
pub enum Refusal {
    // a size is out of its range
    Size(Size),
    // a lent slice is too short
    Short(Slice),
    // a byte of a call is in fault
    Fault { place: u32 },
}

// A size that is in its range, or refused.
fn within(n: u32, low: u32, high: u32, which: Size) -> Result<(), Refusal>
    ensures { refused result ≡ pick (in_range_of low high n) None (Some (1, size_number which)) }
{
    if (low..=high).contains(&n) {
        Ok(())
    } else {
        Err(Refusal::Size(which))
    }
}

impl Sizes {
    // All sizes in their ranges, or the first that is not.
    pub(crate) fn in_range(&self) -> Result<(), Refusal>
        ensures { refused result ≡ size_refusal (sizes_of self.now) }
    {
        within(self.wide, 1, 4096, Size::Wide)?;
        within(self.high, 1, 4096, Size::High)?;
        within(self.windows, 0, 255, Size::Windows)?;
        within(self.programs, 1, 64, Size::Programs)?;
        within(self.side, 0, 4096, Size::Side)?;
        within(self.dots, 0, 16777216, Size::Dots)
    }

    // The first size that is out of its range, if any is.
    pub fn refusal(&self) -> Option<Refusal>
        ensures { numbered result ≡ size_refusal (sizes_of self.now) }
    {
        self.in_range().err()
    }
}

impl Refusal {
    // The number by which it is known.
    pub fn number(&self) -> u8
        ensures { result ≡ (numbered_one self.now).0 }
    {
        match *self {
            Refusal::Size(_) => 1,
            Refusal::Short(_) => 2,
            Refusal::Fault { .. } => 3,
        }
    }

    // And its place: which size, which slice, which byte.
    pub fn place(&self) -> u32
        ensures { result ≡ (numbered_one self.now).1 }
    {
        match *self {
            Refusal::Size(which) => which as u32,
            Refusal::Short(slice) => slice as u32,
            Refusal::Fault { place } => place,
        }
    }
}

impl fmt::Display for Refusal {
    ghost output = { λ r. Some (said (numbered_one r)) };

    fn fmt<W: fmt::Write>(&self, f: &mut fmt::Formatter<W>) -> fmt::Result {
        write!(f, "refused {} at {}", self.number(), self.place())
    }
}

// Sizes that are not refused are those for which the promises are made.
pub fn ranges_stand()
    ensures { Ranges }
{}
