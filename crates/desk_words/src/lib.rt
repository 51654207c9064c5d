// Refusals and errors in plain words.
#![tactic(auto)]

ghost use Rattle.std.specs.Prelude.{[], ◌++◌, ◌≡◌, ◌≤◌, length, IfSome, MatchOption};
ghost use Rattle.text.specs.Ascii.{ascii};
ghost use Rattle.text.specs.Decimal.{decimal};
ghost use Rattle.text.specs.Text.{Wrote, named};
ghost use Rattle.desk_words.specs.Meanings.{meanings, causes, doubt, refusal_words, cause};

use file_refusal::Refusal;
use text::decimal::{put_decimal, put_short};
use text::put::put_bytes;

// How a file begins: as a meter file does, by block 01; otherwise; or not at all.
#[derive(Clone, Copy, PartialEq, Eq, Debug)]
pub enum Front {
    Meter,
    Other,
    Empty,
}

// What a refusal means, by its number.
#[tactic(auto, unfolding(crate::specs::Meanings::meanings, text::specs::Text::named))]
fn meaning(num: u8) -> &'static [u8]
    ensures words { result.now ≡ named meanings num }
    ensures short { length result.now ≤ 70 }
{
    match num {
        1 => b"the number of bytes is odd, or over 65,536",
        2 => b"the file ends too early",
        3 => b"a block is shorter than its table, or its length or title is wrong",
        4 => b"a block is missing, or out of order",
        5 => b"the meter is neither a 945 nor a 953",
        6 => b"a block has another layout than its table",
        7 => b"a profile record has a wrong id or length",
        8 => b"a value is not one that its table allows",
        9 => b"something stands behind the end marker",
        10 => b"the label is over 507 bytes",
        11 => b"the output is too short",
        _ => b"",
    }
}

// Where the fault is.
fn put_word(out: &mut [u8], at: usize) -> usize
    requires { 31 ≤ length out.old }
    ensures { Wrote (ascii " at word " ++ decimal at ++ ascii ": ") 31 out.old out.new result }
{
    let a = put_bytes(out, b" at word ");
    let b = a + put_decimal(&mut out[a..], at as u64);
    b + put_bytes(&mut out[b..], b": ")
}

#[tactic(auto, unfolding(crate::specs::Meanings::doubt))]
fn doubt(front: Front) -> &'static [u8]
    ensures words { result.now ≡ doubt front }
    ensures short { length result.now ≤ 27 }
{
    match front {
        Front::Meter => b"",
        Front::Other => b"; this may be no meter file",
        Front::Empty => b"; the file is empty",
    }
}

pub fn put_refusal(out: &mut [u8], refusal: Refusal, front: Front) -> usize
    requires { 145 ≤ length out.old }
    ensures { Wrote (refusal_words refusal front) 145 out.old out.new result }
{
    let a = put_bytes(out, b"refused ");
    let b = a + put_short(&mut out[a..], refusal.num as u64);
    let c = b + put_word(&mut out[b..], refusal.at);
    let d = c + put_bytes(&mut out[c..], meaning(refusal.num));
    d + put_bytes(&mut out[d..], doubt(front))
}

// An error in words, where it has some.
#[tactic(auto, unfolding(crate::specs::Meanings::causes, text::specs::Text::named))]
fn known_cause(error: u16) -> Option<&'static [u8]>
    ensures words { MatchOption result (named causes error ≡ []) (λ words. words.now ≡ named causes error) }
    ensures sized { IfSome result (λ words. (1 ≤ length words.now) × (length words.now ≤ 30)) }
{
    match error {
        1 => Some(b"it may not be changed"),
        2 => Some(b"there is no such file"),
        5 => Some(b"the disk has a fault"),
        13 => Some(b"permission is missing"),
        17 => Some(b"its temporary name is taken"),
        20 => Some(b"there is no such folder"),
        21 => Some(b"it is a folder"),
        27 => Some(b"the file would be too large"),
        28 => Some(b"the disk is full"),
        29 => Some(b"it is a pipe or a device"),
        30 => Some(b"the disk is read-only"),
        36 => Some(b"the name is too long"),
        40 => Some(b"its links lead in a circle"),
        122 => Some(b"the disk quota is used up"),
        _ => None,
    }
}

fn put_error(out: &mut [u8], error: u16) -> usize
    requires { 15 ≤ length out.old }
    ensures { Wrote (ascii "error " ++ decimal error) 15 out.old out.new result }
{
    let a = put_bytes(out, b"error ");
    a + put_short(&mut out[a..], error as u64)
}

// A number stays here, since the clause speaks of any number.
pub fn put_cause(out: &mut [u8], error: u16) -> usize
    requires { 30 ≤ length out.old }
    ensures { Wrote (cause error) 30 out.old out.new result }
{
    match known_cause(error) {
        Some(words) => put_bytes(out, words),
        None => put_error(out, error),
    }
}
