// What is told.
ghost use Rattle.std.specs.Prelude.{◌≡◌};
ghost use Rattle.model.specs.Basics.{pick};
ghost use Rattle.desktop.specs.Does.{answered};

use protocol::Word;

// A word, and the program that it goes to. Bytes that it points to are the clipboard's.
#[derive(Clone, Copy)]
pub struct Told {
    pub program: u8,
    pub word: Word,
}

// The answer to a request: done, or no.
pub fn answer(program: u8, taken: bool) -> Option<Told>
    ensures { result ≡ answered program taken }
{
    let word = if taken { Word::Done } else { Word::No };
    Some(Told { program, word })
}
