// Slim: the slim copy of a file, written into a lent output.
#![tactic(auto)]

ghost use Rattle.std.specs.Prelude.{◌≡◌, length, get_or};
ghost use Rattle.words.specs.Words.{words_of};
ghost use Rattle.file_order.specs.Setup.{row_for};
ghost use Rattle.file_slim.specs.Cut.{WroteWords, HasRoom};
ghost use Rattle.call_check.specs.Slims.{slims_in, known_from};
ghost use Rattle.file_read.specs.Read.{part_at};
ghost use Rattle.call_slim.specs.Copy.{slim_words, slim_copy, room_for, output_by, Slimmed};
ghost use Rattle.call_slim.specs.Parts.{IsAccepted, part_words, Within};

use call_check::judge::survey;
use file_order::setup::Setup;
use file_refusal::Refusal;
use file_rules::Row;
use file_slim::{put_slim, put_word, put_words, slim_words};
use file_walk::{Block, Cursor, raw_words};
use words::{front, rest, word};

// The row of a block, by what is known before it.
fn row_by(known: Setup, b: &[u8]) -> Row
    ensures { result ≡ row_for known (get_or (words_of b.now) 0 0) }
{
    known.row_for(word(b, 0))
}

// What is known after a block. One that is not listed says nothing, so no row is asked for.
fn known_from(known: Setup, file: &[u8], block: Block) -> Setup
    ensures { result ≡ known_from known (part_at (words_of file.now) block.start block.length) }
{
    known.learnt(block.words(file))
}

// How many words of the slim copy are a block and its raw contents. What is known, the file and the block stay parameters: no plainer as a
// struct, since each call in the two loops is one line.
fn part_words(known: Setup, file: &[u8], block: Block) -> usize
    requires { Within (words_of file.now) known block.start block.length }
    ensures { result ≡ length (part_words known (part_at (words_of file.now) block.start block.length)) }
{
    let b = block.words(file);
    let row = row_by(known, b);
    if !row.listed {
        return 0;
    }
    slim_words(b, row) + raw_words(b)
}

// Writes the words that `part_words` counts.
fn put_part(out: &mut [u8], known: Setup, file: &[u8], block: Block) -> usize
    requires { Within (words_of file.now) known block.start block.length × HasRoom (part_words known (part_at (words_of file.now) block.start block.length)) out.old }
    ensures { WroteWords (part_words known (part_at (words_of file.now) block.start block.length)) out.old out.new result }
{
    let b = block.words(file);
    let row = row_by(known, b);
    if !row.listed {
        return 0;
    }
    let a = put_slim(out, b, row);
    let raw = front(rest(file, block.start + block.length), raw_words(b));
    a + put_words(&mut out[a..], raw)
}

// How many words the slim copy has. A loop beside that of `put_copy`: a refusal writes no byte (`Slimmed`), so they are counted first.
fn copy_words(file: &[u8]) -> usize
    requires { IsAccepted file.now }
    ensures { result ≡ length (slim_words (slims_in file.now)) }
{
    let mut cursor = Cursor::start();
    let mut known = Setup::none();
    let mut n = 0;
    while let Ok(block) = cursor.step(file) {
        n += part_words(known, file, block);
        known = known_from(known, file, block);
        cursor = block.next;
    }
    n + 1
}

// Writes the slim copy.
fn put_copy(out: &mut [u8], file: &[u8]) -> usize
    requires { IsAccepted file.now × HasRoom (slim_words (slims_in file.now)) out.old }
    ensures { WroteWords (slim_words (slims_in file.now)) out.old out.new result }
{
    let mut cursor = Cursor::start();
    let mut known = Setup::none();
    let mut n = 0;
    while let Ok(block) = cursor.step(file) {
        n += put_part(&mut out[n..], known, file, block);
        known = known_from(known, file, block);
        cursor = block.next;
    }
    n + put_word(&mut out[n..], 0xFFFF)
}

// An accepted file's slim copy, where it fits.
fn put_whole(file: &[u8], out: &mut [u8]) -> Result<usize, Refusal>
    requires { IsAccepted file.now }
    ensures { (result ≡ room_for (slim_copy file.now) (length out.old)) × (out.new ≡ output_by (slim_copy file.now) out.old result) }
{
    let bytes = 2 * copy_words(file);
    if out.len() < bytes {
        return Err(Refusal { num: 11, at: 0 });
    }
    Ok(put_copy(out, file))
}

// Writes the slim copy of a file and answers its length, or refuses and writes nothing.
pub fn slim(file: &[u8], out: &mut [u8]) -> Result<usize, Refusal>
    ensures { Slimmed file.now out.old out.new result }
{
    survey(file)?;
    put_whole(file, out)
}
