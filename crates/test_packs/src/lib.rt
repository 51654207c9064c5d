// Packs of test data on standard input: items one after the other, each three bytes of its length n, low byte first, and n
// bytes. No heap: an item is read into an array of the caller's.
#![tactic(auto)]

ghost use Rattle.std.specs.Prelude.{◌≤◌, length};

use std::io::Read;
use streams::read_full;

// Reads the next item to the front of the array and answers its length: 0 for an empty item, for one that is longer than the
// array, and at the end of the pack.
pub fn read_item<R: Read>(pack: &mut R, item: &mut [u8]) -> usize
    ensures { result ≤ length item.new }
{
    let mut head = [0u8; 3];
    if read_full(pack, &mut head) < head.len() {
        return 0;
    }
    let [low, middle, high] = head;
    let size = u32::from_le_bytes([low, middle, high, 0]) as usize;
    if item.len() < size {
        return 0;
    }
    read_full(pack, &mut item[..size])
}

// The same where an empty item stands for the `last` bytes that are there.
pub fn read_next<R: Read>(pack: &mut R, item: &mut [u8], last: usize) -> usize
    requires { last ≤ length item.old }
    ensures { result ≤ length item.new }
{
    match read_item(pack, item) {
        0 => last,
        size => size,
    }
}
