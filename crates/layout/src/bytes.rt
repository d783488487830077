// Bytes in the words of the lent work, four in each, the lowest first.
ghost use Rattle.std.specs.Prelude.{◌≡◌, ℕ, ◌+◌, ◌*◌, ◌/◌, ◌<◌, ◌≤◌, ◌⊎◌, length, slice_index};
ghost use Rattle.few.specs.Held.{held};
ghost use Rattle.layout.specs.Head.{byte_in, bytes_in};
ghost use Rattle.layout.specs.Head.{byte_of as byte_in_word};

use few::Few;

// The byte i of those that begin at a word.
fn byte_at(work: &[u32], at: usize, i: usize) -> u8
    requires { at + i / 4 < length work.now }
    ensures { result ≡ byte_in work.now at i }
{
    work[at + i / 4].to_le_bytes()[i % 4]
}

// The first `count` of the bytes that begin at a word.
// (By number: the check takes no loop over a chain with a flat_map that gives arrays, as the four bytes of a word are.)
pub(crate) fn load_bytes<const N: usize>(work: &[u32], at: usize, count: usize) -> Few<u8, N>
    requires room { count ≤ N }
    requires long { 4 * at + count ≤ 4 * length work.now }
    ensures { held result ≡ bytes_in work.now at count }
{
    let mut bytes = Few::new(0);
    for i in 0..count {
        let _ = bytes.push(byte_at(work, at, i));
    }
    bytes
}

// The word of the four bytes from i on, with zeros behind the end.
fn word_at(bytes: &[u8], i: usize) -> u32
    requires { i < length bytes.now }
    ensures { (j : ℕ) → j < 4 → i + j < length bytes.now → byte_in_word result j ≡ slice_index bytes.now (i + j) }
{
    let byte = |j: usize| bytes.get(i + j).copied().unwrap_or(0);
    u32::from_le_bytes([byte(0), byte(1), byte(2), byte(3)])
}

// Writes bytes from a word on. The last word is filled up with zeros; all other words stay as they are.
// (By index: of words written through a mutable iterator a proof knows nothing.)
pub(crate) fn store_bytes(bytes: &[u8], work: &mut [u32], at: usize)
    requires { at + (length bytes.now + 3) / 4 ≤ length work.old }
    ensures bytes { bytes_in work.new at (length bytes.now) ≡ bytes.now }
    ensures rest { (k : ℕ) → (k < at) ⊎ (at + (length bytes.now + 3) / 4 ≤ k) → slice_index work.new k ≡ slice_index work.old k }
{
    for n in 0..bytes.len().div_ceil(4) {
        work[at + n] = word_at(bytes, 4 * n);
    }
}
