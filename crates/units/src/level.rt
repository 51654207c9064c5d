// Levels and class bounds: tenths of a decibel, with their sign.
ghost use Rattle.std.specs.Prelude.{◌≡◌, ◌^◌, ◌≤◌, ◌<◌, length};
ghost use Rattle.text.specs.Text.{Wrote};
ghost use Rattle.units.specs.Level.{level, bound, fixed, tenths};

use text::decimal::{put_digit, put_short};
use text::put::put_byte;

// Tenths of a decibel.
#[derive(Clone, Copy)]
pub struct Tenths(pub i32);

impl Tenths {
    // The level that a word holds.
    #[tactic(auto, using(crate::proofs::SignedLaws::signed_word), unfolding(crate::specs::Level::level))]
    pub fn level(word: u16) -> Self
        ensures { result ≡ level word }
    {
        Tenths(i32::from(word.cast_signed()))
    }

    // Where class number `class` of a histogram begins. A histogram's length fits a word, so it has fewer than 32,768 classes.
    pub fn bound(bottom: u16, class: u16, width: u16) -> Self
        requires { class < 32768 }
        ensures { result ≡ bound bottom class width }
    {
        let above = u32::from(class) * u32::from(width);
        Tenths(Tenths::level(bottom).0 + above.cast_signed())
    }
}

// n tenths: a whole number, a point and a digit.
fn put_fixed(out: &mut [u8], n: u64) -> usize
    requires n_bound { n < 10 ^ 10 }
    requires in_bounds { 11 ≤ length out.old }
    ensures { Wrote (fixed n) 11 out.old out.new result }
{
    let a = put_short(out, n / 10);
    let b = a + put_byte(&mut out[a..], b'.');
    b + put_digit(&mut out[b..], n)
}

pub fn put_tenths(out: &mut [u8], t: Tenths) -> usize
    requires { 12 ≤ length out.old }
    ensures { Wrote (tenths t) 12 out.old out.new result }
{
    let n = u64::from(t.0.unsigned_abs());
    if t.0 < 0 {
        let a = put_byte(out, b'-');
        a + put_fixed(&mut out[a..], n)
    } else {
        put_fixed(out, n)
    }
}
