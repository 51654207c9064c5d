// The head lines of the sheet: a key and a number, or a key and a text. Each writer is lent the output from its first free byte on, and
// answers how many bytes its line has, the line's end included.
#![tactic(auto)]

ghost use Rattle.std.specs.Prelude.{false, ◌≡◌, map, ◌++◌, ◌+◌, ◌*◌, ◌≤◌, length};
ghost use Rattle.text.specs.Ascii.{ascii};
ghost use Rattle.text.specs.Decimal.{decimal};
ghost use Rattle.text.specs.Text.{Wrote, shown};
ghost use Rattle.sheet_head.specs.Head.{head_text, needs_quotes, doubled_byte, doubled, quoted, head_line};

use text::decimal::put_short;
use text::put::{put_byte, put_bytes, put_text, show};

fn put_key(out: &mut [u8], key: &[u8]) -> usize
    requires { length key.now + 1 ≤ length out.old }
    ensures { Wrote (key.now ++ ascii "=") (length key.now + 1) out.old out.new result }
{
    let a = put_bytes(out, key);
    a + put_byte(&mut out[a..], b'=')
}

// A head line with a number.
pub fn put_number(out: &mut [u8], key: &[u8], v: u16) -> usize
    requires { length key.now + 11 ≤ length out.old }
    ensures { Wrote (head_line key.now (decimal v)) (length key.now + 11) out.old out.new result }
{
    let a = put_key(out, key);
    let b = a + put_short(&mut out[a..], v as u64);
    b + put_byte(&mut out[b..], b'\n')
}

// Whether a text holds a comma or a double quote.
#[tactic(auto, using(crate::proofs::NeedLaws::shown_either))]
fn needs_quotes(text: &[u8]) -> bool
    ensures { result ≡ needs_quotes (map shown text.now) }
{
    text.contains(&b',') || text.contains(&b'"')
}

// A byte between quotes: a quote is doubled.
fn put_doubled_byte(out: &mut [u8], b: u8) -> usize
    requires { 2 ≤ length out.old }
    ensures { Wrote (doubled_byte b) 2 out.old out.new result }
{
    if b == b'"' {
        return put_bytes(out, b"\"\"");
    }
    put_byte(out, b)
}

fn put_doubled(out: &mut [u8], text: &[u8]) -> usize
    requires { 2 * length text.now ≤ length out.old }
    ensures { Wrote (doubled (map shown text.now)) (2 * length text.now) out.old out.new result }
{
    let mut at = 0;
    for b in text {
        at += put_doubled_byte(&mut out[at..], show(*b));
    }
    at
}

// A head line between quotes.
fn put_quoted(out: &mut [u8], key: &[u8], text: &[u8]) -> usize
    requires key_value { needs_quotes key.now ≡ false }
    requires text_in_bounds { length key.now + 2 * length text.now + 4 ≤ length out.old }
    ensures { Wrote (quoted (head_text key.now (map shown text.now)) ++ ascii "\n") (length key.now + 2 * length text.now + 4) out.old out.new result }
{
    let a = put_byte(out, b'"');
    let b = a + put_key(&mut out[a..], key);
    let c = b + put_doubled(&mut out[b..], text);
    c + put_bytes(&mut out[c..], b"\"\n")
}

// A head line with a text. A key needs no quotes.
pub fn put_entry(out: &mut [u8], key: &[u8], text: &[u8]) -> usize
    requires key_value { needs_quotes key.now ≡ false }
    requires text_in_bounds { length key.now + 2 * length text.now + 4 ≤ length out.old }
    ensures { Wrote (head_line key.now (map shown text.now)) (length key.now + 2 * length text.now + 4) out.old out.new result }
{
    if needs_quotes(text) {
        return put_quoted(out, key, text);
    }
    let a = put_key(out, key);
    let b = a + put_text(&mut out[a..], text);
    b + put_byte(&mut out[b..], b'\n')
}
