// The 16-bit words of a slice of bytes. Each function answers for any slice and any index.
#![tactic(auto)]

ghost use Rattle.std.specs.Prelude.{◌≡◌, length, get_or, take, drop};
ghost use Rattle.words.specs.Words.{words_of, long_at, Holds};

// A word of each of the three profiles.
#[derive(Clone, Copy)]
pub struct Three {
    pub first: u16,
    pub second: u16,
    pub third: u16,
}

// How many words there are. A byte that is left over at the end is no word.
pub fn count(bytes: &[u8]) -> usize
    ensures { result ≡ length (words_of bytes.now) }
{
    bytes.len() / 2
}

// Word i, low byte first; 0 past the end.
pub fn word(bytes: &[u8], i: usize) -> u16
    ensures { result ≡ get_or (words_of bytes.now) i 0 }
{
    if i < bytes.len() / 2 {
        u16::from_le_bytes([bytes[2 * i], bytes[2 * i + 1]])
    } else {
        0
    }
}

// The words from word k on; none past the end.
#[tactic(auto, using(crate::proofs::WordLaws::words_length))]
pub fn rest(bytes: &[u8], k: usize) -> &[u8]
    ensures { Holds (drop k (words_of bytes.now)) result.now }
{
    let n = count(bytes);
    &bytes[2 * k.min(n)..2 * n]
}

// The first n words, or all where there are fewer.
#[tactic(auto, using(crate::proofs::WordLaws::words_length))]
pub fn front(bytes: &[u8], n: usize) -> &[u8]
    ensures { Holds (take n (words_of bytes.now)) result.now }
{
    let all = count(bytes);
    &bytes[..2 * n.min(all)]
}

// The 32-bit number at word i, low word first.
pub fn long(bytes: &[u8], i: usize) -> u32
    ensures { result ≡ long_at (words_of bytes.now) i }
{
    let field = rest(bytes, i);
    u32::from(word(field, 0)) + 65536 * u32::from(word(field, 1))
}
