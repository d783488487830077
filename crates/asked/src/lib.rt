// The sizes of a desk as the words of a command ask for them.
#![tactic(auto)]

ghost use Rattle.std.specs.Prelude.{map, string_bytes, MatchOption};
ghost use Rattle.std.specs.List.{AllZip};
ghost use Rattle.asked.specs.Asked.{IsSize, NoSize, NoSizes, sizes_list};

use layout::sizes::Sizes;

// One size in decimal, as the library reads it; one that is too large for 32 bits is out of every range all the same.
fn size(word: &str) -> Option<u32>
    ensures { MatchOption result (NoSize word.now) (IsSize word.now) }
{
    let n = word.parse::<u64>().ok()?;
    Some(u32::try_from(n).unwrap_or(u32::MAX))
}

// The sizes of a desk in their order, if there are six words and each is a number.
pub fn sizes(words: &[String]) -> Option<Sizes>
    ensures { MatchOption result (NoSizes (map string_bytes words.now)) (λ z. AllZip IsSize (map string_bytes words.now) (sizes_list z)) }
{
    let [wide, high, windows, programs, side, dots] = words else {
        return None;
    };
    Some(Sizes {
        wide: size(wide.as_str())?,
        high: size(high.as_str())?,
        windows: size(windows.as_str())?,
        programs: size(programs.as_str())?,
        side: size(side.as_str())?,
        dots: size(dots.as_str())?,
    })
}
