// Numbers as words of the text.
ghost use Rattle.std.specs.Prelude.{◌≡◌, ◌≤◌, pos, neg_ℤ, IfSome};
ghost use Rattle.script.specs.Numerals.{in_base, plain_number, signed_number};

// The number that digits write, if it is at most `most`.
fn in_radix(digits: &str, radix: u32, most: u32) -> Option<u32>
    requires { (2 ≤ radix) × (radix ≤ 16) }
    ensures value { result ≡ in_base radix most digits.now }
    ensures bound { IfSome result (λ n. n ≤ most) }
{
    // the library's reader would take a plus sign
    if digits.starts_with('+') {
        return None;
    }
    u32::from_str_radix(digits, radix)
        .ok()
        .filter(|n| *n <= most)
}

// The number that a word writes in decimal, or behind 0x in hexadecimal, if it is at most `most`.
pub fn plain(word: &str, most: u32) -> Option<u32>
    ensures value { result ≡ plain_number most word.now }
    ensures bound { IfSome result (λ n. n ≤ most) }
{
    match word.strip_prefix("0x") {
        Some(digits) => in_radix(digits, 16, most),
        None => in_radix(word, 10, most),
    }
}

// The number from -32768 to 32767 that a word writes.
pub fn signed(word: &str) -> Option<i16>
    ensures { result ≡ signed_number word.now }
{
    match word.strip_prefix('-') {
        Some(rest) => plain(rest, 32768).map(|n| -(n as i32) as i16),
        None => plain(word, 32767).map(|n| n as i16),
    }
}
