// Sheet asked line by line with an output of 1,024 bytes, and from each line number on. No heap: outputs are arrays of a fixed length.
ghost use Rattle.std.specs.Prelude.{◌≤◌, length, IfSome};

use call_sheet::sheet;
use paging::fit::Progress;
use streams::write_all;

// How many bytes the first line of a text has, its end included.
fn line_length(text: &[u8]) -> usize
    ensures { result ≤ length text.now }
{
    match text.iter().position(|b| *b == b'\n') {
        Some(i) => i + 1,
        None => text.len(),
    }
}

// How far Sheet comes from line n on; nothing where the file is refused.
fn lines_from<'a>(file: &'a [u8], label: &'a [u8], n: u32, out: &mut [u8]) -> Option<Progress>
    ensures { IfSome result (λ p. p.bytes ≤ length out.new) }
{
    sheet(file, label, n, out).ok()
}

// The text from line n on, in the front of the output; its length. Nothing where that is not all of the rest.
fn rest_from<'a>(file: &'a [u8], label: &'a [u8], n: u32, out: &mut [u8]) -> usize
    ensures { result ≤ length out.new }
{
    match lines_from(file, label, n, out) {
        Some(p) if p.finished => p.bytes,
        _ => 0,
    }
}

// Whether the lines from line n on are the text `whole` from `at` on.
fn is_rest<'a>(file: &'a [u8], label: &'a [u8], n: u32, whole: &[u8], at: usize) -> bool {
    let mut out = [0u8; 65536];
    let size = rest_from(file, label, n, &mut out);
    whole.get(at..) == Some(&out[0..size])
}

// Prints line n, the first that an output of 1,024 bytes gets; its length.
fn print_line<'a, P: Print>(rt: &P, file: &'a [u8], label: &'a [u8], n: u32) -> usize
    ensures { result ≤ 1024 }
{
    let mut scratch = [0u8; 1024];
    let Some(p) = lines_from(file, label, n, &mut scratch) else {
        return 0;
    };
    let length = line_length(&scratch[0..p.bytes]);
    write_all(rt, &scratch[0..length]);
    length
}

// Prints a sheet, which is the text `whole`, line by line, and answers from how many line numbers on the rest is right.
fn print_walk<'a, P: Print>(rt: &P, file: &'a [u8], label: &'a [u8], whole: &[u8]) -> u32 {
    let mut at = 0;
    let mut right = 0;
    for n in 0..1000000 {
        right += u32::from(is_rest(file, label, n, whole, at));
        let length = print_line(rt, file, label, n);
        if length == 0 {
            break;
        }
        at += length;
    }
    right
}

// Prints the first line of each answer, and from how many line numbers on Sheet gave just the rest of the whole sheet.
pub fn print_lines<'a, P: Print>(rt: &P, file: &'a [u8], label: &'a [u8]) -> bool {
    let mut whole = [0u8; 65536];
    let size = rest_from(file, label, 0, &mut whole);
    let right = print_walk(rt, file, label, &whole[0..size]);
    println!(rt; "{right} rests").is_ok()
}
