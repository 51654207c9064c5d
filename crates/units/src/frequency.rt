// Frequencies: hundredths of a hertz.
ghost use Rattle.std.specs.Prelude.{◌≡◌, ◌≤◌, ◌<◌, length};
ghost use Rattle.text.specs.Text.{Wrote};
ghost use Rattle.units.specs.Frequency.{fraction, centihertz, octaves, thirds, band_place};

use text::decimal::{put_digit, put_short};
use text::put::put_byte;

// Hundredths of a hertz.
#[derive(Clone, Copy)]
pub struct Centihertz(pub u32);

// A point and the digits of f hundredths, without zeros at the end; nothing for none.
fn put_fraction(out: &mut [u8], f: u64) -> usize
    requires f_bound { f < 100 }
    requires in_bounds { 3 ≤ length out.old }
    ensures { Wrote (fraction f) 3 out.old out.new result }
{
    if f == 0 {
        return 0;
    }
    let a = put_byte(out, b'.');
    let b = a + put_digit(&mut out[a..], f / 10);
    if f % 10 == 0 {
        return b;
    }
    b + put_digit(&mut out[b..], f)
}

pub fn put_centihertz(out: &mut [u8], f: Centihertz) -> usize
    requires { 12 ≤ length out.old }
    ensures { Wrote (centihertz f) 12 out.old out.new result }
{
    let n = u64::from(f.0);
    let a = put_short(out, n / 100);
    a + put_fraction(&mut out[a..], n % 100)
}

// The nominal frequencies of the 1/3 octave bands. Every third of them, from the second on, is a 1/1 octave band's.
const THIRDS: [Centihertz; 45] = [
    Centihertz(80),
    Centihertz(100),
    Centihertz(125),
    Centihertz(160),
    Centihertz(200),
    Centihertz(250),
    Centihertz(315),
    Centihertz(400),
    Centihertz(500),
    Centihertz(630),
    Centihertz(800),
    Centihertz(1000),
    Centihertz(1250),
    Centihertz(1600),
    Centihertz(2000),
    Centihertz(2500),
    Centihertz(3150),
    Centihertz(4000),
    Centihertz(5000),
    Centihertz(6300),
    Centihertz(8000),
    Centihertz(10000),
    Centihertz(12500),
    Centihertz(16000),
    Centihertz(20000),
    Centihertz(25000),
    Centihertz(31500),
    Centihertz(40000),
    Centihertz(50000),
    Centihertz(63000),
    Centihertz(80000),
    Centihertz(100000),
    Centihertz(125000),
    Centihertz(160000),
    Centihertz(200000),
    Centihertz(250000),
    Centihertz(315000),
    Centihertz(400000),
    Centihertz(500000),
    Centihertz(630000),
    Centihertz(800000),
    Centihertz(1000000),
    Centihertz(1250000),
    Centihertz(1600000),
    Centihertz(2000000),
];

// The table whole, so that a caller takes it once for all its rows: an element of a constant costs the whole table each time.
#[tactic(auto, unfolding(crate::specs::Frequency::thirds))]
pub fn thirds() -> [Centihertz; 45]
    ensures { result ≡ thirds }
{
    THIRDS
}

// The place of a band of w hundredths of a hertz on the list of 1/1 octaves, or the list's length. A word holds the first ten.
// No Option: the clause has the list's length for none, which `first_band_of` and the number of bands left count with.
#[tactic(auto, unfolding(crate::specs::Frequency::octaves, crate::specs::Frequency::band_place))]
pub fn octave_place(w: u16) -> u16
    ensures { result ≡ band_place w octaves }
{
    match w {
        100 => 0,
        200 => 1,
        400 => 2,
        800 => 3,
        1600 => 4,
        3150 => 5,
        6300 => 6,
        12500 => 7,
        25000 => 8,
        50000 => 9,
        _ => 15,
    }
}
