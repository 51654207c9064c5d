// What the programs print of the answers of Title, Slim and Sheet.
// No heap: files, labels, copies and lines stand in arrays of a fixed length, of which a part is filled.
// `print_sheet` goes on where a write fails and answers true, so printing answers a bool and no error.
#![tactic(auto)]

ghost use Rattle.std.specs.Prelude.{◌<◌, IfSome};

use call_sheet::sheet;
use call_slim::slim;
use call_title::title;
use file_refusal::Refusal;
use print_check::put_refusal;
use std::env::Env;
use streams::{arg, read_full, write_all};

pub fn print_refusal<P: Print>(rt: &P, refusal: Refusal) -> bool {
    let mut line = [0u8; 42];
    let n = put_refusal(&mut line, refusal);
    write_all(rt, &line[..n])
}

// Prints a file's slim copy, or the line of its refusal.
pub fn print_slim<P: Print>(rt: &P, file: &[u8]) -> bool {
    // A slim copy is no longer than its file, and an accepted file has at most 65,536 bytes.
    let mut copy = [0u8; 65536];
    match slim(file, &mut copy) {
        Ok(n) => write_all(rt, &copy[0..n]),
        Err(refusal) => print_refusal(rt, refusal),
    }
}

// Prints the lines of a file's sheet from line n on, as many as fit, or the line of its refusal. Answers from which line on
// there is more to print, or nothing where there is no more.
fn print_lines<'a, P: Print>(
    rt: &P,
    file: &'a [u8],
    label: &'a [u8],
    n: u32,
    out: &mut [u8],
) -> Option<u32>
    ensures { IfSome result (λ next. n < next) }
{
    match sheet(file, label, n, out) {
        Ok(p) => {
            write_all(rt, &out[0..p.bytes]);
            if p.finished { None } else { Some(n + p.lines) }
        }
        Err(refusal) => {
            print_refusal(rt, refusal);
            None
        }
    }
}

// Prints a file's whole sheet, as many lines at a time as fit, or the line of its refusal.
pub fn print_sheet<'a, P: Print>(rt: &P, file: &'a [u8], label: &'a [u8]) -> bool {
    let mut out = [0u8; 65536];
    let mut n = 0;
    while let Some(next) = print_lines(rt, file, label, n, &mut out) {
        n = next;
    }
    true
}

// Prints what Title hands back.
pub fn print_title<'a, P: Print>(rt: &P, file: &'a [u8], label: &'a [u8]) -> bool {
    write_all(rt, title(file, label))
}

// What a call answers to the file on standard input.
fn of_file<R: Input, F: FnOnce(&[u8]) -> bool>(rt: &R, call: F) -> bool
    requires { F.IsAlwaysCallable call }
{
    // One byte more than a file may have decides that it is refused, whatever follows.
    let mut file = [0u8; 65537];
    let size = read_full(&mut rt.reader(), &mut file);
    call(&file[..size])
}

// What a call answers to the file on standard input, with the first argument as the label, or an empty one.
fn of_file_and_label<R: Env + Input, F: FnOnce(&[u8], &[u8]) -> bool>(rt: &R, call: F) -> bool
    requires { F.IsAlwaysCallable call }
{
    // Linux lets no argument be longer.
    let mut label = [0u8; 131072];
    let n = arg(rt, 1, &mut label);
    of_file(rt, |file| call(file, &label[..n]))
}

// The program `slim`: the slim copy of the file on standard input.
pub fn slim_of_input<R: Input + Print>(rt: &R) -> bool {
    of_file(rt, |file| print_slim(rt, file))
}

// The program `sheet`: the sheet of the file on standard input, with the first argument as the label, or an empty one.
pub fn sheet_of_input<R: Env + Input + Print>(rt: &R) {
    of_file_and_label(rt, |file, label| print_sheet(rt, file, label));
}

// The program `title`: the title of the file on standard input, with the first argument as the label, or an empty one.
pub fn title_of_input<R: Env + Input + Print>(rt: &R) -> bool {
    of_file_and_label(rt, |file, label| print_title(rt, file, label))
}
