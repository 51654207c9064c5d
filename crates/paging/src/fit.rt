// Whole lines, as many as fit.
ghost use Rattle.std.specs.Prelude.{List, ℕ, ◌<◌};
ghost use Rattle.paging.specs.Fit.{TriedTo, Puts};

use text::put::put_bytes;

// How far a call came. The flag is no plainer as an Option: lines and bytes count in both cases.
#[derive(Clone, Copy, PartialEq, Eq, Debug)]
pub struct Progress {
    pub lines: u32,
    pub bytes: usize,
    pub finished: bool,
}

// A line that is made already, where it fits: its length, or none where there is no room.
pub fn try_line(out: &mut [u8], line: &[u8]) -> Option<usize>
    ensures { TriedTo line.now out.old out.new result }
{
    if line.len() <= out.len() {
        Some(put_bytes(out, line))
    } else {
        None
    }
}

// A line of at most N bytes, where it fits. Where any such line fits it is written at its place; near the end of the output,
// where its length decides, it is made in a scratch array and copied.
pub(crate) fn fit<const N: usize, W: FnOnce(&mut [u8]) -> usize>(
    out: &mut [u8],
    put: W,
) -> Option<usize>
    requires array { N < 9223372036854775808 }
    requires puts { (line : List ℕ) × Puts W.FnOnce put N line }
    ensures { (line : List ℕ) → Puts W.FnOnce put N line → TriedTo line out.old out.new result }
{
    if N <= out.len() {
        return Some(put(out));
    }
    let mut scratch = [0u8; N];
    let whole = &mut scratch[..];
    let n = put(whole);
    try_line(out, &whole[0..n])
}
