// Unsigned numbers in decimal.
ghost use Rattle.std.specs.Prelude.{◌≡◌, ◌+◌, ◌%◌, ◌^◌, ◌≤◌, ◌<◌, length};
ghost use Rattle.text.specs.Text.{Wrote};
ghost use Rattle.text.specs.Decimal.{last_digit, decimal};

use crate::put::put_byte;

// The last digit of n.
fn digit(n: u64) -> u8
    ensures { result ≡ 48 + n % 10 }
{
    b'0' + (n % 10) as u8
}

pub fn put_digit(out: &mut [u8], n: u64) -> usize
    requires { 1 ≤ length out.old }
    ensures { Wrote (last_digit n) 1 out.old out.new result }
{
    put_byte(out, digit(n))
}

// v where just its digits fit, from the last to the first.
fn put_digits(out: &mut [u8], v: u64) -> usize
    requires { length (decimal v) ≤ length out.old }
    ensures { Wrote (decimal v) (length (decimal v)) out.old out.new result }
{
    let count = v.max(1).ilog10() as usize + 1;
    let mut n = v;
    // Tried with `out[..count].iter_mut().rev()`: the proof did not close, since after an adapter of `iter_mut` no element of out is known, only its length.
    for at in (0..count).rev() {
        out[at] = digit(n);
        n /= 10;
    }
    count
}

// Any number of 64 bits.
pub fn put_decimal(out: &mut [u8], v: u64) -> usize
    requires { 20 ≤ length out.old }
    ensures { Wrote (decimal v) 20 out.old out.new result }
{
    put_digits(out, v)
}

// A number of at most nine digits. It stays beside `put_decimal`: its clause asks for 9 bytes, on which the rooms of its callers rest.
pub fn put_short(out: &mut [u8], v: u64) -> usize
    requires v_bound { v < 10 ^ 9 }
    requires in_bounds { 9 ≤ length out.old }
    ensures { Wrote (decimal v) 9 out.old out.new result }
{
    put_digits(out, v)
}
