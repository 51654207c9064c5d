// Slim and Sheet with an output of a given size: the front of a scratch array, whose every byte is EE before.
use call_sheet::sheet;
use call_slim::slim;
use file_refusal::Refusal;
use paging::fit::Progress;
use print_calls::print_refusal;
use streams::write_all;

fn print_copied<P: Print>(rt: &P, reply: Result<usize, Refusal>) -> bool {
    match reply {
        Ok(n) => println!(rt; "{n} bytes").is_ok(),
        Err(refusal) => print_refusal(rt, refusal),
    }
}

// Prints what Slim answers to an output of `room` bytes, at most 160, and all bytes of the array.
pub fn print_room<P: Print>(rt: &P, file: &[u8], room: usize) -> bool {
    let mut scratch = [0xEEu8; 160];
    let Some(out) = scratch.get_mut(..room) else {
        return false;
    };
    let reply = slim(file, out);
    print_copied(rt, reply) && write_all(rt, &scratch) && write_all(rt, b"\n")
}

fn print_progress<P: Print>(rt: &P, p: Progress) -> bool {
    let end = if p.finished { "finished" } else { "more" };
    println!(rt; "{} lines, {} bytes, {end}", p.lines, p.bytes).is_ok()
}

// Prints a reply, and answers how many bytes it counts.
fn print_reply<P: Print>(rt: &P, reply: Result<Progress, Refusal>) -> usize {
    match reply {
        Ok(p) => {
            print_progress(rt, p);
            p.bytes
        }
        Err(refusal) => {
            print_refusal(rt, refusal);
            0
        }
    }
}

// Prints what stands in the array where `size` bytes are counted: the first 1,024 of these, and whether the others are as they
// were.
fn print_front<P: Print>(rt: &P, scratch: &[u8], size: usize) -> bool {
    let Some((written, rest)) = scratch.split_at_checked(size) else {
        return false;
    };
    write_all(rt, &written[0..size.min(1024)]);
    if rest.iter().all(|b| *b == 0xEE) {
        return write_all(rt, b"the rest unchanged\n");
    }
    write_all(rt, b"the rest changed\n")
}

// Prints what Sheet answers from line n on to an output of `room` bytes, at most 66,000.
pub fn print_part<'a, P: Print>(
    rt: &P,
    file: &'a [u8],
    label: &'a [u8],
    n: u32,
    room: usize,
) -> bool {
    let mut scratch = [0xEEu8; 66000];
    let Some(out) = scratch.get_mut(..room) else {
        return false;
    };
    let reply = sheet(file, label, n, out);
    let size = print_reply(rt, reply);
    print_front(rt, &scratch, size)
}
