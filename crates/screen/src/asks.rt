// What the words of the command ask for.
use anyhow::Context;
use layout::sizes::Sizes;

// One of the two marks may stand before the sizes, and not both: each asks for other lines.
const USAGE: &str =
    "usage: screen [--quiet | --program C] ACROSS DOWN WINDOWS PROGRAMS SIDE DOTS < EVENTS";

// What is printed.
#[derive(Clone, Copy)]
pub enum What {
    // what is told and the screen, after each event
    All,
    // how much was carried out, told and sent, at the end
    Counts,
    // what one program is told
    Program(u8),
}

// What is asked for in front of the sizes, and the words of the sizes.
fn marks(words: &[String]) -> Option<(What, &[String])> {
    let Some((first, rest)) = words.split_first() else {
        return Some((What::All, words));
    };
    match first.as_str() {
        "--quiet" => Some((What::Counts, rest)),
        "--program" => {
            let (program, rest) = rest.split_first()?;
            let program = program.as_str().parse::<u8>().ok()?;
            Some((What::Program(program), rest))
        }
        _ => Some((What::All, words)),
    }
}

// What is to be printed, and the sizes.
pub fn asks(words: &[String]) -> anyhow::Result<(What, Sizes)> {
    let (what, rest) = marks(words).context(USAGE)?;
    let sizes = asked::sizes(rest).context(USAGE)?;
    Ok((what, sizes))
}
