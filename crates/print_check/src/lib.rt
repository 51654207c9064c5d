// The line that is printed of an answer of Check.
#![tactic(auto)]

ghost use mathlib.Core.List.{◌++◌, flat_map};
ghost use Rattle.std.specs.Prelude.{◌+◌, ◌≤◌, length};
ghost use Rattle.words.specs.Numbers.{numbers_from};
ghost use Rattle.text.specs.Ascii.{ascii};
ghost use Rattle.text.specs.Decimal.{decimal};
ghost use Rattle.text.specs.Text.{named, Wrote};
ghost use Rattle.call_check.specs.Starts.{place_count};
ghost use Rattle.call_check.specs.Check.{verdict};
ghost use Rattle.print_check.specs.Replies.{refusal_line, entry, keys, start_entry, acceptance, reply};

use call_check::check::{Outline, check};
use call_check::starts::Starts;
use file_refusal::Refusal;
use text::decimal::{put_decimal, put_short};
use text::put::{put_byte, put_bytes};

// Where the fault is, and the line's end.
fn put_place(out: &mut [u8], at: usize) -> usize
    requires { 25 ≤ length out.old }
    ensures { Wrote (ascii " at " ++ decimal at ++ ascii "\n") 25 out.old out.new result }
{
    let a = put_bytes(out, b" at ");
    let b = a + put_decimal(&mut out[a..], at as u64);
    b + put_byte(&mut out[b..], b'\n')
}

pub fn put_refusal(out: &mut [u8], refusal: Refusal) -> usize
    requires { 42 ≤ length out.old }
    ensures { Wrote (refusal_line refusal) 42 out.old out.new result }
{
    let a = put_bytes(out, b"refused ");
    let b = a + put_short(&mut out[a..], refusal.num as u64);
    b + put_place(&mut out[b..], refusal.at)
}

// The key of a place of the record.
#[tactic(auto, unfolding(text::specs::Text::named, crate::specs::Replies::keys))]
fn put_key(out: &mut [u8], place: usize) -> usize
    requires { 10 ≤ length out.old }
    ensures { Wrote (named keys place) 10 out.old out.new result }
{
    match place {
        0 => put_bytes(out, b" 01="),
        1 => put_bytes(out, b" 02="),
        2 => put_bytes(out, b" 03="),
        3 => put_bytes(out, b" 04="),
        4 => put_bytes(out, b" 05="),
        5 => put_bytes(out, b" 07="),
        6 => put_bytes(out, b" spectrum="),
        7 => put_bytes(out, b" 09="),
        8 => put_bytes(out, b" 0F="),
        _ => 0,
    }
}

// The key of a place and the start that stands there.
fn put_entry(out: &mut [u8], place: usize, start: u16) -> usize
    requires { 19 ≤ length out.old }
    ensures { Wrote (entry (named keys place) start) 19 out.old out.new result }
{
    let a = put_key(out, place);
    a + put_short(&mut out[a..], start as u64)
}

// The start word of each block.
fn put_starts(out: &mut [u8], starts: Starts) -> usize
    requires { 171 ≤ length out.old }
    ensures { Wrote (flat_map (start_entry starts) (numbers_from 0 place_count)) 171 out.old out.new result }
{
    let mut at = 0;
    for place in 0..9 {
        at += put_entry(&mut out[at..], place, starts.start(place));
    }
    at
}

fn put_acceptance(out: &mut [u8], r: Outline) -> usize
    requires { 199 ≤ length out.old }
    ensures { Wrote (acceptance r) 199 out.old out.new result }
{
    let a = put_bytes(out, b"accepted function=");
    let b = a + put_short(&mut out[a..], r.function as u64);
    let c = b + put_starts(&mut out[b..], r.starts);
    c + put_byte(&mut out[c..], b'\n')
}

// 199 bytes hold an acceptance, and a refusal takes fewer.
#[tactic(auto, using(text::proofs::Writing::at_most), unfolding(crate::specs::Replies::reply))]
pub fn put_answer(out: &mut [u8], answer: Result<Outline, Refusal>) -> usize
    requires { 199 ≤ length out.old }
    ensures { Wrote (reply answer) 199 out.old out.new result }
{
    match answer {
        Ok(r) => put_acceptance(out, r),
        Err(refusal) => put_refusal(out, refusal),
    }
}

// The line of Check's answer to a file.
#[tactic(auto, using(call_check::proofs::Answers::checked_verdict))]
pub fn put_verdict(out: &mut [u8], file: &[u8]) -> usize
    requires { 199 ≤ length out.old }
    ensures { Wrote (reply (verdict file.now)) 199 out.old out.new result }
{
    put_answer(out, check(file))
}
