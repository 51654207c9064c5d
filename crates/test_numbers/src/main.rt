// One row of each kind of text, from literal values, and the lines of the 1/3 octave bands as many at a time as fit. No heap: a text is
// made in an array of a fixed length.
#![tactic(auto)]

ghost use denote.Ref.{MutBor};
ghost use Rattle.std.specs.Prelude.{◌≡◌, List, ℕ, [], ◌∷◌, ◌≤◌, length, drop};
ghost use Rattle.text.specs.Text.{Wrote};
ghost use Rattle.paging.specs.Fit.{Filled};
ghost use Rattle.paging.specs.Run.{Inside, Continued};
ghost use Rattle.test_numbers.specs.Rows.{band_line, band_lines};

use paging::fit::Progress;
use paging::run::Run;
use streams::write_all;
use text::decimal::put_decimal;
use text::put::{put_byte, put_text};
use units::frequency::{Centihertz, put_centihertz, thirds};
use units::level::{Tenths, put_tenths};

// A band's frequency, and the line's end.
fn put_band(out: &mut [u8], f: Centihertz) -> usize
    requires { 13 ≤ length out.old }
    ensures { Wrote (band_line f) 13 out.old out.new result }
{
    let a = put_centihertz(out, f);
    a + put_byte(&mut out[a..], b'\n')
}

// The same after the lines of a run, where it fits.
fn fill_band(out: &mut [u8], run: Run, f: Centihertz) -> Run
    requires { Inside run out.old }
    ensures { Continued (band_line f ∷ []) out.old out.new run result }
{
    run.write_line::<13, _>(out, |rest| put_band(rest, f))
}

// As many bands, from band `first` on, as fit.
fn put_bands(out: &mut [u8], first: u32) -> Progress
    ensures { Filled (drop first band_lines) out.old out.new result }
{
    let mut run = Run::start(first as usize);
    for band in thirds() {
        run = fill_band(out, run, band);
    }
    Progress {
        lines: run.lines as u32,
        bytes: run.bytes,
        finished: run.all,
    }
}

// A row of standard output: what kind of text it shows, and the text, which is the first n bytes of out.
fn print<P: Print>(rt: &P, kind: &[u8], out: &[u8], n: usize)
    requires { n ≤ length out.now }
{
    write_all(rt, kind);
    write_all(rt, &out[0..n]);
    write_all(rt, b"\n");
}

// The same, of a text that `put` writes into 20 bytes.
fn print_put<P: Print, W: FnOnce(&mut [u8]) -> usize>(rt: &P, kind: &[u8], put: W)
    requires takes { (s : MutBor (List ℕ)) → length s.now ≡ 20 → W.pre put s }
    requires within { (s t : MutBor (List ℕ)) (n : ℕ) → length s.now ≡ 20 → W.post put s n t → n ≤ 20 }
{
    let mut out = [0u8; 20];
    let n = put(&mut out);
    print(rt, kind, &out, n);
}

// The lines of the bands that fit into 16 bytes, and how many these are.
fn print_bands<P: Print>(rt: &P, first: u32) {
    let mut out = [0u8; 16];
    let p = put_bands(&mut out, first);
    let n = p.bytes;
    print(rt, b"bands\n", &out, n);
    print_put(rt, b"lines,", |out| put_decimal(out, p.lines as u64));
}

fn main(rt: HostRuntime) {
    print_put(&rt, b"text,", |out| put_text(out, b"Hall\x1F\x7F~ "));
    print_put(
        &rt,
        b"number,",
        |out| put_decimal(out, 18446744073709551615),
    );
    let time = words::long(b"\x01\x00\x02\x00", 0);
    print_put(&rt, b"time,", |out| put_decimal(out, time as u64));
    let level = Tenths::level(words::word(b"\xFB\xFF", 0));
    print_put(&rt, b"level,", |out| put_tenths(out, level));
    print_put(&rt, b"level,", |out| put_tenths(out, Tenths::level(0x8000)));
    let bound = Tenths::bound(0x7FFF, 16319, 65535);
    print_put(&rt, b"bound,", |out| put_tenths(out, bound));
    print_put(
        &rt,
        b"frequency,",
        |out| put_centihertz(out, Centihertz(3150)),
    );
    print_bands(&rt, 0);
    print_bands(&rt, 43);
    print_bands(&rt, 45);
}
