// Prints the answer of Check to the file on standard input. It reads as the programs of print_calls do: no plainer as one more public
// function there.
// No heap: the file and its line stand in arrays of a fixed length, of which a part is filled.
#![tactic(auto)]

use print_check::put_verdict;
use streams::{read_full, write_all};

fn main(rt: HostRuntime) {
    // A file may have 65,536 bytes. One more decides that it is refused, whatever follows, so no more is read.
    let mut file = [0u8; 65537];
    let size = read_full(&mut rt.reader(), &mut file);
    let mut line = [0u8; 199];
    let n = put_verdict(&mut line, &file[..size]);
    write_all(&rt, &line[..n]);
}
