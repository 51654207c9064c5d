// The walk over the blocks of a meter file: where each starts, how long it is, and where the next one starts.
#![tactic(auto)]

ghost use Rattle.std.specs.Prelude.{◌≡◌, ◌≤◌, drop, length, take};
ghost use Rattle.words.specs.Words.{words_of, Holds};
ghost use Rattle.file_walk.specs.Walk.{fitted, long_form, raw_of, stepped, step_at};

use file_refusal::Refusal;
use words::{count, front, long, rest, word};

// A place between two blocks: the word `at`, and where the block before it starts.
#[derive(Clone, Copy, PartialEq, Eq, Debug)]
pub struct Cursor {
    pub at: usize,
    pub last: usize,
}

// Why the walk is over: the end marker, with `left` words after it, or a refusal.
#[derive(Clone, Copy, PartialEq, Eq, Debug)]
pub enum Stop {
    End { at: usize, left: usize },
    Refused(Refusal),
}

// A block of the walk: the two bytes of its first word, the word where it starts, its length in words, and the place after it.
#[derive(Clone, Copy, PartialEq, Eq, Debug)]
pub struct Block {
    pub id: u8,
    pub nn: u8,
    pub start: usize,
    pub length: usize,
    pub next: Cursor,
}

impl Block {
    // The words of the block, in the file that it was found in.
    pub fn words(self, file: &[u8]) -> &[u8]
        ensures { Holds (take self.length (drop self.start (words_of file.now))) result.now }
    {
        front(rest(file, self.start), self.length)
    }
}

// How many raw words follow a block: those that a logger header counts in bytes.
#[tactic(auto, unfolding(crate::specs::Walk::raw_of))]
pub fn raw_words(block: &[u8]) -> usize
    ensures { result ≡ raw_of (words_of block.now) }
{
    if word(block, 0) % 256 == 0x0F {
        (long(block, 6) / 2) as usize
    } else {
        0
    }
}

// Whether a block with this first word has its length in word 1.
#[tactic(auto, unfolding(crate::specs::Walk::long_form))]
fn is_long(header: u16) -> bool
    ensures { result ≡ long_form header }
{
    header / 256 == 0 || matches!(header % 256, 0x0B | 0x14)
}

impl Cursor {
    // The place before the first block.
    pub fn start() -> Cursor
        ensures { result ≡ record { at = 0; last = 0 } }
    {
        Cursor { at: 0, last: 0 }
    }

    // A block of `len` words at the front of the words that are left.
    fn cut(self, left: &[u8], len: u16) -> Result<Block, Stop>
        requires { self.at ≤ 9223372036854775807 }
        ensures { result ≡ stepped self.at (words_of left.now) (fitted (length (words_of left.now)) len) }
    {
        let at = self.at;
        let length = usize::from(len);
        if count(left) < length {
            return Err(Stop::Refused(Refusal { num: 2, at }));
        }
        let [id, nn] = word(left, 0).to_le_bytes();
        let raw = raw_words(front(left, length));
        let next = Cursor {
            at: at + (length + raw),
            last: at,
        };
        Ok(Block {
            id,
            nn,
            start: at,
            length,
            next,
        })
    }

    // What stands here: a block, or why the walk is over.
    pub fn step(self, file: &[u8]) -> Result<Block, Stop>
        ensures { result ≡ step_at (words_of file.now) self }
    {
        let Cursor { at, last } = self;
        if count(file) < at {
            return Err(Stop::Refused(Refusal { num: 2, at: last }));
        }
        let left = rest(file, at);
        let n = count(left);
        if n == 0 {
            return Err(Stop::Refused(Refusal { num: 2, at }));
        }
        let header = word(left, 0);
        if header == 0xFFFF {
            return Err(Stop::End { at, left: n - 1 });
        }
        if !is_long(header) {
            return self.cut(left, header / 256);
        }
        if n < 2 {
            return Err(Stop::Refused(Refusal { num: 2, at }));
        }
        let length = word(left, 1);
        if length < 2 {
            return Err(Stop::Refused(Refusal { num: 3, at }));
        }
        self.cut(left, length)
    }
}
