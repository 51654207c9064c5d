// What the desk says: a line for each file with what came of it, a summary, and the names that did not get through once more.
#![tactic(auto)]

ghost use Rattle.std.specs.Prelude.{cond, [], ◌++◌, ◌≡◌, ◌+◌, ◌-◌, ◌≤◌, ◌<◌, eqb, length};
ghost use Rattle.text.specs.Ascii.{ascii};
ghost use Rattle.text.specs.Decimal.{decimal};
ghost use Rattle.text.specs.Text.{Wrote, named};
ghost use Rattle.desk_words.specs.Meanings.{cause};
ghost use Rattle.std.specs.IoError.{raw_os_error};
ghost use Rattle.desk_lines.specs.Notices.{error_number, printed, printed_name, taken, outcome, place, older, notice, fate_of, no_tally, one_more, total, not_begun, summary, fate_byte, again_words, again};

use desk_words::{Front, put_cause, put_refusal};
use file_refusal::Refusal;
use std::io::Error;
use text::decimal::put_decimal;
use text::put::{put_byte, put_bytes, put_mapped};

// An error by the system's own number of it, which is told where it has no words.
#[derive(Clone, Copy, PartialEq, Eq, Debug)]
pub struct Errno {
    pub number: u16,
}

impl From<Error> for Errno {
    ghost from_gives = { λ error errno. errno.number ≡ error_number (raw_os_error error) };

    // 5, a fault of the disk, where the system names none.
    fn from(error: Error) -> Errno {
        let number = match error.raw_os_error() {
            Some(code @ 1..=65535) => code as u16,
            _ => 5,
        };
        Errno { number }
    }
}

// By what a target is taken, so that nothing is written there.
#[derive(Clone, Copy, PartialEq, Eq, Debug)]
pub enum Taken {
    Input,
    NoSheet,
    NoSlim,
    Folder,
    Shut { error: Errno },
    Claimed,
}

// What came of a file.
#[derive(Clone, Copy, PartialEq, Eq, Debug)]
pub enum Outcome {
    Converted { lines: u32 },
    Copied { bytes: usize },
    Accepted,
    Refused { refusal: Refusal, front: Front },
    Unread { error: Errno },
    Unwritten { error: Errno },
    Kept { by: Taken },
}

// How it is counted: converted, copied or accepted; refused; not read or written.
#[derive(Clone, Copy, PartialEq, Eq, Debug)]
pub enum Fate {
    Done,
    Refused,
    Failed,
}

#[tactic(auto, unfolding(crate::specs::Notices::fate_of))]
pub fn fate_of(o: Outcome) -> Fate
    ensures { result ≡ fate_of o }
{
    match o {
        Outcome::Converted { .. } | Outcome::Copied { .. } | Outcome::Accepted => Fate::Done,
        Outcome::Refused { .. } => Fate::Refused,
        Outcome::Unread { .. } | Outcome::Unwritten { .. } | Outcome::Kept { .. } => Fate::Failed,
    }
}

pub fn is_done(o: Outcome) -> bool {
    matches!(fate_of(o), Fate::Done)
}

// The number by which a name is told once more.
#[tactic(auto, unfolding(crate::specs::Notices::fate_byte))]
pub fn fate_byte(fate: Fate) -> u8
    ensures { result ≡ fate_byte fate }
{
    match fate {
        Fate::Done => 0,
        Fate::Refused => 1,
        Fate::Failed => 2,
    }
}

// How many files of each fate.
#[derive(Clone, Copy, PartialEq, Eq, Debug)]
pub struct Tally {
    pub done: usize,
    pub refused: usize,
    pub failed: usize,
}

impl Tally {
    #[tactic(auto, unfolding(crate::specs::Notices::no_tally))]
    pub fn none() -> Tally
        ensures { result ≡ no_tally }
    {
        Tally {
            done: 0,
            refused: 0,
            failed: 0,
        }
    }

    // One file more.
    #[tactic(auto, unfolding(crate::specs::Notices::one_more, crate::specs::Notices::total))]
    pub fn with(self, fate: Fate) -> Tally
        requires { total self < 18446744073709551615 }
        ensures { (result ≡ one_more self fate) × (total result ≡ total self + 1) }
    {
        match fate {
            Fate::Done => Tally {
                done: self.done + 1,
                ..self
            },
            Fate::Refused => Tally {
                refused: self.refused + 1,
                ..self
            },
            Fate::Failed => Tally {
                failed: self.failed + 1,
                ..self
            },
        }
    }
}

// A byte of a name as it is printed.
fn print_byte(b: u8) -> u8
    ensures { result ≡ printed b }
{
    match b {
        0..0x20 | 0x7F => b'?',
        _ => b,
    }
}

#[tactic(auto, unfolding(crate::specs::Notices::printed_name))]
fn put_name(out: &mut [u8], name: &[u8]) -> usize
    requires { length name.now ≤ length out.old }
    ensures { Wrote (printed_name name.now) (length name.now) out.old out.new result }
{
    put_mapped(out, name, print_byte)
}

// A text, and a cause after it.
fn put_failure(out: &mut [u8], what: &[u8], error: Errno) -> usize
    requires { length what.now + 30 ≤ length out.old }
    ensures { Wrote (what.now ++ cause error.number) (length what.now + 30) out.old out.new result }
{
    let a = put_bytes(out, what);
    a + put_cause(&mut out[a..], error.number)
}

// A number, and what it counts.
fn put_count(out: &mut [u8], n: u64, what: &[u8]) -> usize
    requires { 20 + length what.now ≤ length out.old }
    ensures { Wrote (decimal n ++ what.now) (20 + length what.now) out.old out.new result }
{
    let a = put_decimal(out, n);
    a + put_bytes(&mut out[a..], what)
}

#[tactic(auto, using(text::proofs::Writing::at_most), unfolding(crate::specs::Notices::taken))]
fn put_taken(out: &mut [u8], by: Taken) -> usize
    requires { 57 ≤ length out.old }
    ensures { Wrote (taken by) 57 out.old out.new result }
{
    match by {
        Taken::Input => put_bytes(out, b" is itself a file to convert"),
        Taken::NoSheet => put_bytes(out, b" is there and is no sheet"),
        Taken::NoSlim => put_bytes(out, b" is there and is no slim copy"),
        Taken::Folder => put_bytes(out, b" is a folder"),
        Taken::Shut { error } => put_failure(out, b" is there and is not read: ", error),
        Taken::Claimed => put_bytes(out, b" belongs to an earlier file of this run"),
    }
}

// That nothing was written, and why.
fn put_kept(out: &mut [u8], path: &[u8], by: Taken) -> usize
    requires { 70 + length path.now ≤ length out.old }
    ensures { Wrote (ascii "not written: " ++ printed_name path.now ++ taken by) (70 + length path.now) out.old out.new result }
{
    let a = put_bytes(out, b"not written: ");
    let b = a + put_name(&mut out[a..], path);
    b + put_taken(&mut out[b..], by)
}

#[tactic(auto, using(text::proofs::Writing::at_most), unfolding(crate::specs::Notices::outcome))]
fn put_outcome(out: &mut [u8], path: &[u8], o: Outcome) -> usize
    requires { 145 + length path.now ≤ length out.old }
    ensures { Wrote (outcome path.now o) (145 + length path.now) out.old out.new result }
{
    match o {
        Outcome::Converted { lines } => put_count(out, lines as u64, b" lines"),
        Outcome::Copied { bytes } => put_count(out, bytes as u64, b" bytes"),
        Outcome::Accepted => put_bytes(out, b"accepted"),
        Outcome::Refused { refusal, front } => put_refusal(out, refusal, front),
        Outcome::Unread { error } => put_failure(out, b"not read: ", error),
        Outcome::Unwritten { error } => put_failure(out, b"not written in its folder: ", error),
        Outcome::Kept { by } => put_kept(out, path, by),
    }
}

// A name between two texts.
fn put_within(out: &mut [u8], front: &[u8], name: &[u8], end: &[u8]) -> usize
    requires { length front.now + length name.now + length end.now ≤ length out.old }
    ensures { Wrote (front.now ++ printed_name name.now ++ end.now) (length front.now + length name.now + length end.now) out.old out.new result }
{
    let a = put_bytes(out, front);
    let b = a + put_name(&mut out[a..], name);
    b + put_bytes(&mut out[b..], end)
}

fn put_place(out: &mut [u8], i: usize, files: usize, name: &[u8]) -> usize
    requires { 44 + length name.now ≤ length out.old }
    ensures { Wrote (place i files name.now) (44 + length name.now) out.old out.new result }
{
    let a = put_count(out, i as u64, b"/");
    let b = a + put_decimal(&mut out[a..], files as u64);
    b + put_within(&mut out[b..], b" ", name, b": ")
}

#[tactic(auto, using(text::proofs::Writing::at_most), unfolding(crate::specs::Notices::older))]
fn put_older(out: &mut [u8], path: &[u8], there: bool) -> usize
    requires { 26 + length path.now ≤ length out.old }
    ensures { Wrote (cond there (older path.now) []) (26 + length path.now) out.old out.new result }
{
    if there {
        return put_within(out, b"; an older ", path, b" is still there");
    }
    0
}

// The line of a file; `there` says that a sheet or a slim copy stands at `path` from before. Its parts stay parameters: the clause names
// them.
pub fn put_notice(
    out: &mut [u8],
    i: usize,
    files: usize,
    name: &[u8],
    path: &[u8],
    o: Outcome,
    there: bool,
) -> usize
    requires { 216 + length name.now + length path.now + length path.now ≤ length out.old }
    ensures { Wrote (notice i files name.now path.now o there) (216 + length name.now + length path.now + length path.now) out.old out.new result }
{
    let a = put_place(out, i, files, name);
    let b = a + put_outcome(&mut out[a..], path, o);
    let c = b + put_older(&mut out[b..], path, there);
    c + put_byte(&mut out[c..], b'\n')
}

fn put_files(out: &mut [u8], files: usize) -> usize
    requires { 28 ≤ length out.old }
    ensures { Wrote (decimal files ++ cond (eqb files 1) (ascii " file: ") (ascii " files: ")) 28 out.old out.new result }
{
    if files == 1 {
        return put_count(out, files as u64, b" file: ");
    }
    put_count(out, files as u64, b" files: ")
}

fn put_done(out: &mut [u8], done: usize, word: &[u8]) -> usize
    requires { 23 + length word.now ≤ length out.old }
    ensures { Wrote (decimal done ++ ascii " " ++ word.now ++ ascii ", ") (23 + length word.now) out.old out.new result }
{
    let a = put_count(out, done as u64, b" ");
    let b = a + put_bytes(&mut out[a..], word);
    b + put_bytes(&mut out[b..], b", ")
}

// The files that did not get through.
fn put_others(out: &mut [u8], refused: usize, failed: usize) -> usize
    requires { 70 ≤ length out.old }
    ensures { Wrote (decimal refused ++ ascii " refused, " ++ decimal failed ++ ascii " not read or written") 70 out.old out.new result }
{
    let a = put_count(out, refused as u64, b" refused, ");
    let b = a + put_decimal(&mut out[a..], failed as u64);
    b + put_bytes(&mut out[b..], b" not read or written")
}

// Nothing where every file was begun.
fn put_not_begun(out: &mut [u8], n: usize) -> usize
    requires { 32 ≤ length out.old }
    ensures { Wrote (not_begun n) 32 out.old out.new result }
{
    if n == 0 {
        return 0;
    }
    let a = put_bytes(out, b", ");
    a + put_count(&mut out[a..], n as u64, b" not begun")
}

// The last line; `word` says what was done with the files that got through.
#[tactic(auto, unfolding(crate::specs::Notices::total))]
pub fn put_summary(out: &mut [u8], files: usize, word: &[u8], t: Tally) -> usize
    requires { (154 + length word.now ≤ length out.old) × (total t ≤ files) }
    ensures { Wrote (summary files word.now t) (154 + length word.now) out.old out.new result }
{
    let a = put_files(out, files);
    let b = a + put_done(&mut out[a..], t.done, word);
    let c = b + put_others(&mut out[b..], t.refused, t.failed);
    let rest = files - t.done - t.refused - t.failed;
    let d = c + put_not_begun(&mut out[c..], rest);
    d + put_byte(&mut out[d..], b'\n')
}

#[tactic(auto, unfolding(crate::specs::Notices::again_words, text::specs::Text::named))]
fn again_word(fate: u8) -> &'static [u8]
    ensures words { result.now ≡ named again_words fate }
    ensures short { length result.now ≤ 21 }
{
    match fate {
        1 => b"refused: ",
        2 => b"not read or written: ",
        _ => b"",
    }
}

// A name that did not get through once more. Its fate stays a number here, since the clause speaks of any number.
pub fn put_again(out: &mut [u8], fate: u8, name: &[u8]) -> usize
    requires { 22 + length name.now ≤ length out.old }
    ensures { Wrote (again fate name.now) (22 + length name.now) out.old out.new result }
{
    let a = put_bytes(out, again_word(fate));
    let b = a + put_name(&mut out[a..], name);
    b + put_byte(&mut out[b..], b'\n')
}
