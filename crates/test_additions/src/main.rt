// Compares what the calls reply to both files of each pair of the pack on standard input, whose items are a name, a label, a file
// (an empty one stands for the file before it) and the same file with additions. Prints whether that is another file, whether Check
// accepts it, and whether Sheet, Slim and Title reply to it just as they do to the file itself.
// No heap: items and answers stand in arrays of a fixed length, of which a part is filled.
#![tactic(auto)]

ghost use Rattle.std.specs.Prelude.{◌≤◌, length};

use call_check::check::check;
use call_sheet::sheet;
use call_slim::slim;
use call_title::title;
use file_refusal::Refusal;
use paging::fit::Progress;
use std::io::Read;
use streams::write_all;
use test_packs::{read_item, read_next};

// What Sheet replies to both files from line n on into N bytes, where that is the same, with every byte of the outputs.
fn ask<'a, const N: usize>(
    file: &'a [u8],
    new: &'a [u8],
    label: &'a [u8],
    n: u32,
) -> Option<Result<Progress, Refusal>>
    requires { N ≤ 65536 }
{
    let mut a = [0xEEu8; N];
    let mut b = [0xEEu8; N];
    let reply = sheet(file, label, n, &mut a);
    let other = sheet(new, label, n, &mut b);
    (reply == other && a == b).then_some(reply)
}

// Whether the sheets are the same from each line number on, up to that where no line is left.
fn is_same_walk<'a>(file: &'a [u8], new: &'a [u8], label: &'a [u8]) -> bool {
    for n in 0..1000000 {
        let Some(Ok(p)) = ask::<1024>(file, new, label, n) else {
            return false;
        };
        if p.lines == 0 {
            return p.finished;
        }
    }
    false
}

// Whether an output of 65,536 bytes gets the same.
fn is_same_whole<'a>(file: &'a [u8], new: &'a [u8], label: &'a [u8]) -> bool {
    ask::<65536>(file, new, label, 0).is_some()
}

// Whether a label of 508 bytes is refused.
fn is_same_10<'a>(file: &'a [u8], new: &'a [u8]) -> bool {
    let label = [b'L'; 508];
    ask::<1024>(file, new, &label, 0) == Some(Err(Refusal { num: 10, at: 0 }))
}

// Whether an output of 1,023 bytes is refused.
fn is_same_11<'a>(file: &'a [u8], new: &'a [u8], label: &'a [u8]) -> bool {
    ask::<1023>(file, new, label, 0) == Some(Err(Refusal { num: 11, at: 0 }))
}

fn is_same_sheet<'a>(file: &'a [u8], new: &'a [u8], label: &'a [u8]) -> bool {
    is_same_walk(file, new, label)
        && is_same_whole(file, new, label)
        && is_same_10(file, new)
        && is_same_11(file, new, label)
}

// Whether both slim copies were written and are the same, with every byte of the outputs.
fn is_same_copy(file: &[u8], new: &[u8]) -> bool {
    let mut a = [0xEEu8; 65536];
    let mut b = [0xEEu8; 65536];
    let reply = slim(file, &mut a);
    reply.is_ok() && reply == slim(new, &mut b) && a == b
}

// Whether an output of no bytes is refused.
fn is_without_room(file: &[u8]) -> bool {
    slim(file, &mut []) == Err(Refusal { num: 11, at: 0 })
}

fn is_same_slim(file: &[u8], new: &[u8]) -> bool {
    is_same_copy(file, new) && is_without_room(file) && is_without_room(new)
}

fn is_same_title<'a>(file: &'a [u8], new: &'a [u8], label: &'a [u8]) -> bool {
    title(file, label) == title(new, label)
}

// Prints one of two texts.
fn print_either<P: Print>(rt: &P, first: bool, one: &[u8], two: &[u8]) -> bool {
    write_all(rt, if first { one } else { two })
}

// Prints which replies are the same, or which are not.
fn print_replies<P: Print>(rt: &P, sheet: bool, slim: bool, title: bool) -> bool {
    if sheet && slim && title {
        return write_all(rt, b", the same sheet, slim copy and title\n");
    }
    print_either(rt, sheet, b"", b", another sheet");
    print_either(rt, slim, b"", b", another slim copy");
    print_either(rt, title, b"", b", another title");
    write_all(rt, b"\n")
}

// Prints what there is to say of a pair.
fn print_pair<'a, P: Print>(rt: &P, file: &'a [u8], new: &'a [u8], label: &'a [u8]) -> bool {
    print_either(rt, file == new, b": the same file", b": another file");
    print_either(rt, check(new).is_ok(), b", accepted", b", refused");
    print_replies(
        rt,
        is_same_sheet(file, new, label),
        is_same_slim(file, new),
        is_same_title(file, new, label),
    )
}

// The next pair of the pack, after one with a file of `last` bytes. Answers the size of its file.
fn print_next<P: Print, R: Read>(
    rt: &P,
    pack: &mut R,
    name: &[u8],
    file: &mut [u8],
    last: usize,
) -> usize
    requires { last ≤ length file.old }
    ensures { result ≤ length file.new }
{
    let mut label = [0u8; 508];
    let mut new = [0u8; 65538];
    let a = read_item(pack, &mut label);
    let b = read_next(pack, file, last);
    let c = read_item(pack, &mut new);
    write_all(rt, name);
    print_pair(rt, &file[0..b], &new[0..c], &label[0..a]);
    b
}

fn main(rt: HostRuntime) {
    let mut pack = rt.reader();
    let mut name = [0u8; 255];
    let mut file = [0u8; 65538];
    let mut size = 0;
    // A proved loop has to end, and nothing says that the input does: a pack has at most a million pairs. A loop beside that of
    // test_calls: no plainer as one function, which would take a closure over all that is kept from one item to the next.
    for _ in 0..1000000 {
        let n = read_item(&mut pack, &mut name);
        if n == 0 {
            return;
        }
        size = print_next(&rt, &mut pack, &name[0..n], &mut file, size);
    }
}
