// The names of filters, buffered levels and columns. A code that has no name shows nothing; accepted files have none.
#![tactic(auto)]

ghost use Rattle.std.specs.Prelude.{◌++◌, ◌≤◌, length};
ghost use Rattle.text.specs.Ascii.{ascii};
ghost use Rattle.text.specs.Text.{Wrote, named};
ghost use Rattle.sheet_names.specs.Names.{profile_filters, buffer_codes, spectrum_filters, profile_name, filter_column};

use text::decimal::put_short;
use text::put::{put_byte, put_bytes};

// Three tables of one shape, which are data: no plainer as one function, since each call would bring its own table.
#[tactic(auto, unfolding(text::specs::Text::named, crate::specs::Names::profile_filters))]
fn put_profile_filter(out: &mut [u8], code: u16) -> usize
    requires { 3 ≤ length out.old }
    ensures { Wrote (named profile_filters code) 3 out.old out.new result }
{
    match code {
        0 => put_bytes(out, b"Z"),
        1 => put_bytes(out, b"Lin"),
        2 => put_bytes(out, b"A"),
        3 => put_bytes(out, b"C"),
        4 => put_bytes(out, b"G"),
        _ => 0,
    }
}

#[tactic(auto, unfolding(text::specs::Text::named, crate::specs::Names::buffer_codes))]
fn put_buffer_code(out: &mut [u8], code: u16) -> usize
    requires { 4 ≤ length out.old }
    ensures { Wrote (named buffer_codes code) 4 out.old out.new result }
{
    match code {
        1 => put_bytes(out, b"PEAK"),
        2 => put_bytes(out, b"MAX"),
        3 => put_bytes(out, b"MIN"),
        4 => put_bytes(out, b"RMS"),
        _ => 0,
    }
}

// The 945's names of spectrum filters.
#[tactic(auto, unfolding(text::specs::Text::named, crate::specs::Names::spectrum_filters))]
fn put_octave_filter(out: &mut [u8], code: u16) -> usize
    requires { 3 ≤ length out.old }
    ensures { Wrote (named (spectrum_filters 945) code) 3 out.old out.new result }
{
    match code {
        0 => put_bytes(out, b"HP"),
        1 => put_bytes(out, b"LIN"),
        2 => put_bytes(out, b"A"),
        3 => put_bytes(out, b"C"),
        _ => 0,
    }
}

// The model, the profile and the codes are the file's numbers, no enums: the clauses of these public functions take them so.
pub fn put_spectrum_filter(out: &mut [u8], model: u16, code: u16) -> usize
    requires { 3 ≤ length out.old }
    ensures { Wrote (named (spectrum_filters model) code) 3 out.old out.new result }
{
    if model == 953 {
        return put_profile_filter(out, code);
    }
    put_octave_filter(out, code)
}

pub fn put_profile(out: &mut [u8], p: u16) -> usize
    requires { 10 ≤ length out.old }
    ensures { Wrote (profile_name p) 10 out.old out.new result }
{
    let a = put_byte(out, b'P');
    a + put_short(&mut out[a..], p as u64)
}

pub fn put_filter_column(out: &mut [u8], p: u16, filter: u16) -> usize
    requires { 14 ≤ length out.old }
    ensures { Wrote (filter_column p filter) 14 out.old out.new result }
{
    let a = put_profile(out, p);
    let b = a + put_byte(&mut out[a..], b' ');
    b + put_profile_filter(&mut out[b..], filter)
}

// A profile, and what is buffered of it.
fn put_buffered(out: &mut [u8], p: u16, code: u16) -> usize
    requires { 15 ≤ length out.old }
    ensures { Wrote (profile_name p ++ ascii " " ++ named buffer_codes code) 15 out.old out.new result }
{
    let a = put_profile(out, p);
    let b = a + put_byte(&mut out[a..], b' ');
    b + put_buffer_code(&mut out[b..], code)
}

// The same, and its filter.
pub fn put_buffer_column(out: &mut [u8], p: u16, code: u16, filter: u16) -> usize
    requires { 19 ≤ length out.old }
    ensures { Wrote (profile_name p ++ ascii " " ++ named buffer_codes code ++ ascii " " ++ named profile_filters filter) 19 out.old out.new result }
{
    let a = put_buffered(out, p, code);
    let b = a + put_byte(&mut out[a..], b' ');
    b + put_profile_filter(&mut out[b..], filter)
}
