// Bytes as they are, and text.
ghost use Rattle.std.specs.Prelude.{◌≡◌, [], ◌∷◌, map, ℕ, ◌<◌, ◌≤◌, length};
ghost use Rattle.text.specs.Text.{Wrote, shown};

pub fn put_byte(out: &mut [u8], b: u8) -> usize
    requires { 1 ≤ length out.old }
    ensures { Wrote (b ∷ []) 1 out.old out.new result }
{
    out[0] = b;
    1
}

// Not by `copy_from_slice`: it copies parts that may overlap, by C's `memmove`, and the archive for C asks for no such name.
pub fn put_bytes(out: &mut [u8], src: &[u8]) -> usize
    requires { length src.now ≤ length out.old }
    ensures { Wrote src.now (length src.now) out.old out.new result }
{
    put_mapped(out, src, |b| b)
}

// What f makes of each byte of src: the text is src mapped by any g that says what f answers.
pub fn put_mapped<F: Fn(u8) -> u8>(out: &mut [u8], src: &[u8], f: F) -> usize
    requires in_bounds { length src.now ≤ length out.old }
    requires callable { F.IsAlwaysCallable f }
    ensures { (g : ℕ → ℕ) → ((b r : ℕ) → b < 256 → F.post f b r → r ≡ g b) → Wrote (map g src.now) (length src.now) out.old out.new result }
{
    // Tried with `out.iter_mut().zip(src)`: the proof did not close, since after an adapter of `iter_mut` no element of out is known, only its length.
    for (i, b) in src.iter().enumerate() {
        out[i] = f(*b);
    }
    src.len()
}

// A byte as it is shown: a question mark for one outside 20 to 7E.
pub fn show(b: u8) -> u8
    ensures { result ≡ shown b }
{
    match b {
        0x20..=0x7E => b,
        _ => b'?',
    }
}

pub fn put_text(out: &mut [u8], src: &[u8]) -> usize
    requires { length src.now ≤ length out.old }
    ensures { Wrote (map shown src.now) (length src.now) out.old out.new result }
{
    put_mapped(out, src, show)
}
