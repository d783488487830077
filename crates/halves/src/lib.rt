// Two numbers of 16 bits in one word of 32, the first in the lower half.
#![tactic(auto)]

ghost use Rattle.std.specs.Prelude.{◌≡◌, ◌+◌, ◌*◌, ◌/◌, ◌%◌};

// The halves of a word. (The library takes a word apart into bytes only, of which two would have to be joined again.)
pub fn halves(w: u32) -> (u16, u16)
    ensures low { result.0 ≡ w % 65536 }
    ensures high { result.1 ≡ w / 65536 }
{
    ((w % 65536) as u16, (w / 65536) as u16)
}

// The word of two halves.
pub fn word(low: u16, high: u16) -> u32
    ensures value { result ≡ low + high * 65536 }
    ensures low { result % 65536 ≡ low }
    ensures high { result / 65536 ≡ high }
{
    u32::from(low) + u32::from(high) * 65536
}
