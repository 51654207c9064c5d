// Asks what the items of the pack on standard input say, five to a question: a call by its name, a name, a label, a file, and
// eight bytes or none, a line number and the size of the output, both low byte first. An empty file stands for the file before
// it, but for `check` it is an empty file. Prints the name as it stands and what the call answers. An empty call ends the pack.
// No heap: items and answers stand in arrays of a fixed length, of which a part is filled.
#![tactic(auto)]

mod lines;
mod rooms;

ghost use Rattle.std.specs.Prelude.{◌≤◌, length};

use lines::print_lines;
use print_calls::{print_sheet, print_slim, print_title};
use print_check::put_verdict;
use rooms::{print_part, print_room};
use std::io::Read;
use streams::write_all;
use test_packs::{read_item, read_next};
use words::long;

// Prints the line of Check's answer.
fn print_verdict<P: Print>(rt: &P, file: &[u8]) -> bool {
    let mut line = [0u8; 199];
    let n = put_verdict(&mut line, file);
    write_all(rt, &line[0..n])
}

// Prints what a call answers that is given no numbers.
fn print_whole<'a, P: Print>(rt: &P, call: &[u8], label: &'a [u8], file: &'a [u8]) -> bool {
    match call {
        b"check" => print_verdict(rt, file),
        b"title" => print_title(rt, file, label),
        b"slim" => print_slim(rt, file),
        b"sheet" => print_sheet(rt, file, label),
        b"lines" => print_lines(rt, file, label),
        _ => write_all(rt, b"no such call\n"),
    }
}

// Prints what a call answers. Only Slim and Sheet take numbers.
fn print_answer<'a, P: Print>(
    rt: &P,
    call: &[u8],
    label: &'a [u8],
    file: &'a [u8],
    numbers: &[u8],
) -> bool {
    let n = long(numbers, 0);
    let room = long(numbers, 2) as usize;
    match (call, numbers.len()) {
        (b"slim", 8) => print_room(rt, file, room),
        (b"sheet", 8) => print_part(rt, file, label, n, room),
        _ => print_whole(rt, call, label, file),
    }
}

// What an empty file stands for: how many bytes of the file before it.
fn kept(call: &[u8], last: usize) -> usize
    ensures { result ≤ last }
{
    match call {
        b"check" => 0,
        _ => last,
    }
}

// The next question of the pack, after one on a file of `last` bytes. Answers the size of its file.
fn print_next<P: Print, R: Read>(
    rt: &P,
    pack: &mut R,
    call: &[u8],
    file: &mut [u8],
    last: usize,
) -> usize
    requires { last ≤ length file.old }
    ensures { result ≤ length file.new }
{
    let mut name = [0u8; 255];
    let mut label = [0u8; 508];
    let mut numbers = [0u8; 8];
    let a = read_item(pack, &mut name);
    let b = read_item(pack, &mut label);
    let c = read_next(pack, file, kept(call, last));
    let d = read_item(pack, &mut numbers);
    write_all(rt, &name[0..a]);
    print_answer(rt, call, &label[0..b], &file[0..c], &numbers[0..d]);
    c
}

fn main(rt: HostRuntime) {
    let mut pack = rt.reader();
    let mut call = [0u8; 32];
    // A file of a pack has at most one word more than a file may have.
    let mut file = [0u8; 65538];
    let mut size = 0;
    // A proved loop has to end, and nothing says that the input does: a pack has at most a million questions.
    for _ in 0..1000000 {
        let n = read_item(&mut pack, &mut call);
        if n == 0 {
            return;
        }
        size = print_next(&rt, &mut pack, &call[0..n], &mut file, size);
    }
}
