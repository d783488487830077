// The kinds of events by their names in the text.
ghost use Rattle.std.specs.Prelude.{◌≡◌};
ghost use Rattle.script.specs.Kinds.{kind_of, name_of, wants_of};
ghost use Rattle.script.specs.Tables.{number_of, fields_of, row_of};

use crate::fields::Field;

// (protocol has such an enum for the first byte, within itself. These methods are about text, and a crate can give no methods to another's type: with one
// enum each would be a function beside it.)
#[derive(Clone, Copy)]
pub enum Kind {
    Make,
    Close,
    Move,
    Raise,
    Show,
    Fill,
    Put,
    Copy,
    Offer,
    Point,
    Press,
    Key,
    Paste,
}

impl Kind {
    // Of a word that is no name there is nothing to say but None, so this is no FromStr, whose error would be empty.
    pub fn named(word: &str) -> Option<Kind>
        ensures { result ≡ kind_of word.now }
    {
        match word {
            "make" => Some(Kind::Make),
            "close" => Some(Kind::Close),
            "move" => Some(Kind::Move),
            "raise" => Some(Kind::Raise),
            "show" => Some(Kind::Show),
            "fill" => Some(Kind::Fill),
            "put" => Some(Kind::Put),
            "copy" => Some(Kind::Copy),
            "offer" => Some(Kind::Offer),
            "point" => Some(Kind::Point),
            "press" => Some(Kind::Press),
            "key" => Some(Kind::Key),
            "paste" => Some(Kind::Paste),
            _ => None,
        }
    }

    // A text that lasts, as `wants` is: a Display would print the same, and a message could not hold it.
    pub fn name(self) -> &'static str
        ensures { result.now ≡ name_of self }
    {
        match self {
            Kind::Make => "make",
            Kind::Close => "close",
            Kind::Move => "move",
            Kind::Raise => "raise",
            Kind::Show => "show",
            Kind::Fill => "fill",
            Kind::Put => "put",
            Kind::Copy => "copy",
            Kind::Offer => "offer",
            Kind::Point => "point",
            Kind::Press => "press",
            Kind::Key => "key",
            Kind::Paste => "paste",
        }
    }

    // Its fields, as a message names them.
    pub fn wants(self) -> &'static str
        ensures { result.now ≡ wants_of self }
    {
        match self {
            Kind::Make => "5 fields: program x y wide high",
            Kind::Close => "2 fields: program window",
            Kind::Move => "4 fields: program window x y",
            Kind::Raise => "2 fields: program window",
            Kind::Show => "3 fields: program window mark",
            Kind::Fill => "7 fields: program window x y wide high colour",
            Kind::Put => "4 fields or more: program window x y colours..",
            Kind::Copy => "8 fields: program window x y wide high to-x to-y",
            Kind::Offer => "1 field or more: program bytes..",
            Kind::Point => "2 fields: x y",
            Kind::Press => "1 field: mark",
            Kind::Key => "1 field: key",
            Kind::Paste => "no fields",
        }
    }

    // Its first byte. A method, since at its one use `number` says more than a From.
    pub fn number(self) -> u8
        ensures { result ≡ number_of self }
    {
        self as u8
    }

    // The fields of one word each, in their order.
    pub fn fields(self) -> &'static [Field]
        ensures { result.now ≡ fields_of self }
    {
        match self {
            Kind::Make => &[
                Field::Program,
                Field::Near,
                Field::Near,
                Field::Side,
                Field::Side,
            ],
            Kind::Close => &[Field::Program, Field::Byte],
            Kind::Move => &[Field::Program, Field::Byte, Field::Near, Field::Near],
            Kind::Raise => &[Field::Program, Field::Byte],
            Kind::Show => &[Field::Program, Field::Byte, Field::Mark],
            Kind::Fill => &[
                Field::Program,
                Field::Byte,
                Field::Side,
                Field::Side,
                Field::Side,
                Field::Side,
                Field::Colour,
            ],
            Kind::Put => &[Field::Program, Field::Byte, Field::Side, Field::Side],
            Kind::Copy => &[
                Field::Program,
                Field::Byte,
                Field::Side,
                Field::Side,
                Field::Side,
                Field::Side,
                Field::Side,
                Field::Side,
            ],
            Kind::Offer => &[Field::Program],
            Kind::Point => &[Field::Near, Field::Near],
            Kind::Press => &[Field::Mark],
            Kind::Key => &[Field::Colour],
            Kind::Paste => &[],
        }
    }

    // What the row behind them holds, if there is one.
    pub fn row(self) -> Option<Field>
        ensures { result ≡ row_of self }
    {
        match self {
            Kind::Put => Some(Field::Colour),
            Kind::Offer => Some(Field::Byte),
            _ => None,
        }
    }
}
