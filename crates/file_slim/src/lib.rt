// The slim form of a block, by any row: how many words it has, and its bytes. No table stands here.
#![tactic(auto)]

ghost use Rattle.std.specs.Prelude.{true, ◌≡◌, ◌+◌, ◌/◌, ◌<◌, ◌≤◌, length, drop};
ghost use mathlib.Core.List.{[], ◌∷◌, flatten};
ghost use Rattle.words.specs.Words.{words_of};
ghost use Rattle.file_rules.specs.Block.{nulled};
ghost use Rattle.file_rules.specs.Slim.{counted, cut_to, cut_text, slim_records, head_by, slim_by, words_in};
ghost use Rattle.file_rules.specs.Sound.{Sound};
ghost use Rattle.file_slim.specs.Cut.{WroteWords, HasRoom, Cuts};

use file_rules::{Row, least_of};
use text::put::put_bytes;
use text::read::before_null;
use words::{count, front, rest, word};

// A word, low byte first.
pub fn put_word(out: &mut [u8], w: u16) -> usize
    requires { 2 ≤ length out.old }
    ensures { WroteWords (w ∷ []) out.old out.new result }
{
    put_bytes(out, &w.to_le_bytes())
}

// The words of a slice.
pub fn put_words(out: &mut [u8], b: &[u8]) -> usize
    requires { HasRoom (words_of b.now) out.old }
    ensures { WroteWords (words_of b.now) out.old out.new result }
{
    put_bytes(out, rest(b, 0))
}

// The first word of a block or a sub-block, its count set to n.
#[tactic(auto, unfolding(file_rules::specs::Slim::counted))]
fn put_counted(out: &mut [u8], b: &[u8], n: usize) -> usize
    requires { (2 ≤ length out.old) × (n < 256) }
    ensures { WroteWords (counted n (words_of b.now) ∷ []) out.old out.new result }
{
    put_word(out, word(b, 0) % 256 + 256 * (n as u16))
}

// A block or a sub-block cut to its first n words.
fn put_cut(out: &mut [u8], b: &[u8], n: usize) -> usize
    requires { (n < 256) × HasRoom (cut_to n (words_of b.now)) out.old }
    ensures { WroteWords (cut_to n (words_of b.now)) out.old out.new result }
{
    let a = put_counted(out, b, n);
    a + put_words(&mut out[a..], rest(front(b, n), 1))
}

// How many words a text has with its nulls: one or two, to fill its last word.
fn text_words(text: &[u8]) -> usize
    ensures { result ≡ length text.now / 2 + 1 }
{
    (text.len() + 2) / 2
}

// A text block: its text, with one or two nulls to fill its word.
fn put_text_block(out: &mut [u8], b: &[u8]) -> usize
    requires { (nulled (drop 1 (words_of b.now)) ≡ true) × ((length (words_of b.now) < 256) × HasRoom (cut_text (words_of b.now)) out.old) }
    ensures { WroteWords (cut_text (words_of b.now)) out.old out.new result }
{
    let text = before_null(rest(b, 1));
    let words = text_words(text);
    let nulls = [0u8; 2];
    let a = put_counted(out, b, words + 1);
    let c = a + put_bytes(&mut out[a..], text);
    c + put_bytes(&mut out[c..], &nulls[0..2 * words - text.len()])
}

// What stands before the sub-blocks.
fn put_head(out: &mut [u8], b: &[u8], row: Row) -> usize
    requires { Cuts row (words_of b.now) × HasRoom (head_by row (words_of b.now)) out.old }
    ensures { WroteWords (head_by row (words_of b.now)) out.old out.new result }
{
    if row.exact {
        return put_words(out, b);
    }
    if row.text {
        return put_text_block(out, b);
    }
    if row.subs.count == 0 {
        return put_cut(out, b, least_of(b, row));
    }
    let a = put_counted(out, b, row.least);
    a + put_word(&mut out[a..], word(b, 1))
}

// The sub-blocks at the front of some words, each cut to its least words. Beside the loops of file_read and file_rules over sub-blocks:
// no plainer as one, since one finds, one refuses and one writes.
fn put_records(out: &mut [u8], b: &[u8], row: Row) -> usize
    requires { Sound row × HasRoom (flatten (slim_records row.subs.least row.subs.count (words_of b.now))) out.old }
    ensures { WroteWords (flatten (slim_records row.subs.least row.subs.count (words_of b.now))) out.old out.new result }
{
    let mut n = 0;
    let mut o = 0;
    for _ in 0..row.subs.count {
        let part = rest(b, o);
        n += put_cut(&mut out[n..], part, row.subs.least);
        o += usize::from(word(part, 0) / 256);
    }
    n
}

// The slim form of a block, without raw contents.
pub fn put_slim(out: &mut [u8], b: &[u8], row: Row) -> usize
    requires { Cuts row (words_of b.now) × HasRoom (words_in (slim_by row (words_of b.now) [])) out.old }
    ensures { WroteWords (words_in (slim_by row (words_of b.now) [])) out.old out.new result }
{
    let a = put_head(out, b, row);
    a + put_records(&mut out[a..], rest(b, 2), row)
}

// How many words it has.
pub fn slim_words(b: &[u8], row: Row) -> usize
    requires { Cuts row (words_of b.now) }
    ensures { result ≡ length (words_in (slim_by row (words_of b.now) [])) }
{
    if row.exact {
        return count(b);
    }
    if row.text {
        return text_words(before_null(rest(b, 1))) + 1;
    }
    least_of(b, row)
}
