// The fields of the sheet's lines, from plain values, each after its comma. Each writer is lent the output from its first free
// byte on, and answers how many bytes it wrote.
#![tactic(auto)]

ghost use Rattle.std.specs.Prelude.{[], ◌∷◌, ◌++◌, map, ◌+◌, ◌*◌, ◌≤◌, length};
ghost use Rattle.words.specs.Words.{words_of};
ghost use Rattle.words.specs.Numbers.{numbers_from};
ghost use Rattle.text.specs.Ascii.{ascii};
ghost use Rattle.text.specs.Decimal.{decimal};
ghost use Rattle.text.specs.Text.{Wrote};
ghost use Rattle.units.specs.Frequency.{centihertz};
ghost use Rattle.units.specs.Level.{tenths};
ghost use Rattle.sheet_names.specs.Names.{filter_column};
ghost use Rattle.sheet_fields.specs.Fields.{further, level_field, result_field, lettered, buffer_column, band_columns};

use sheet_names::{put_buffer_column, put_filter_column};
use sheet_results::Number;
use text::decimal::{put_decimal, put_short};
use text::put::put_byte;
use units::frequency::{Centihertz, put_centihertz};
use units::level::{Tenths, put_tenths};
use words::{Three, count, word};

// Fields after a comma: no plainer as one function over a closure, since each is two lines that the check proves alone, and a call with a
// closure is no shorter. The three values of a row stay parameters: the clauses of `put_seconds`, `put_cells` and `put_times` name them.

// Tenths of a decibel after a comma.
pub fn put_decibels(out: &mut [u8], t: Tenths) -> usize
    requires { 13 ≤ length out.old }
    ensures { Wrote (ascii "," ++ tenths t) 13 out.old out.new result }
{
    let a = put_byte(out, b',');
    a + put_tenths(&mut out[a..], t)
}

// The level that a word holds, after a comma.
pub fn put_level(out: &mut [u8], word: u16) -> usize
    requires { 13 ≤ length out.old }
    ensures { Wrote (ascii "," ++ level_field word) 13 out.old out.new result }
{
    put_decibels(out, Tenths::level(word))
}

// A whole number after a comma.
pub fn put_whole(out: &mut [u8], n: u32) -> usize
    requires { 21 ≤ length out.old }
    ensures { Wrote (ascii "," ++ decimal n) 21 out.old out.new result }
{
    let a = put_byte(out, b',');
    a + put_decimal(&mut out[a..], n as u64)
}

// A profile and its filter, after a comma.
fn put_filter(out: &mut [u8], p: u16, filter: u16) -> usize
    requires { 15 ≤ length out.old }
    ensures { Wrote (ascii "," ++ filter_column p filter) 15 out.old out.new result }
{
    let a = put_byte(out, b',');
    a + put_filter_column(&mut out[a..], p, filter)
}

// The three profiles with their filters, and the line's end.
pub fn put_filters(out: &mut [u8], filters: Three) -> usize
    requires { 46 ≤ length out.old }
    ensures { Wrote (further (filter_column 1 filters.first ∷ filter_column 2 filters.second ∷ filter_column 3 filters.third ∷ []) ++ ascii "\n") 46 out.old out.new result }
{
    let a = put_filter(out, 1, filters.first);
    let b = a + put_filter(&mut out[a..], 2, filters.second);
    let c = b + put_filter(&mut out[b..], 3, filters.third);
    c + put_byte(&mut out[c..], b'\n')
}

// The seconds of the three profiles, each after a comma, and the line's end.
pub fn put_seconds(out: &mut [u8], first: u32, second: u32, third: u32) -> usize
    requires { 64 ≤ length out.old }
    ensures { Wrote (further (decimal first ∷ decimal second ∷ decimal third ∷ []) ++ ascii "\n") 64 out.old out.new result }
{
    let a = put_whole(out, first);
    let b = a + put_whole(&mut out[a..], second);
    let c = b + put_whole(&mut out[b..], third);
    c + put_byte(&mut out[c..], b'\n')
}

// A frequency after a comma.
pub fn put_frequency(out: &mut [u8], f: Centihertz) -> usize
    requires { 13 ≤ length out.old }
    ensures { Wrote (ascii "," ++ centihertz f) 13 out.old out.new result }
{
    let a = put_byte(out, b',');
    a + put_centihertz(&mut out[a..], f)
}

// A letter and a number.
pub fn put_lettered(out: &mut [u8], letter: u8, n: u16) -> usize
    requires { 10 ≤ length out.old }
    ensures { Wrote (lettered (letter ∷ []) n) 10 out.old out.new result }
{
    let a = put_byte(out, letter);
    a + put_short(&mut out[a..], n as u64)
}

// The column of a profile, where it is buffered.
fn put_column(out: &mut [u8], p: u16, code: u16, filter: u16) -> usize
    requires { 20 ≤ length out.old }
    ensures { Wrote (further (buffer_column p code filter)) 20 out.old out.new result }
{
    if code == 0 {
        return 0;
    }
    let a = put_byte(out, b',');
    a + put_buffer_column(&mut out[a..], p, code, filter)
}

// The columns of the three profiles. Codes and filters are not taken together: the clause has them apart.
pub fn put_columns(out: &mut [u8], codes: Three, filters: Three) -> usize
    requires { 60 ≤ length out.old }
    ensures { Wrote (further (buffer_column 1 codes.first filters.first ++ buffer_column 2 codes.second filters.second ++ buffer_column 3 codes.third filters.third)) 60 out.old out.new result }
{
    let a = put_column(out, 1, codes.first, filters.first);
    let b = a + put_column(&mut out[a..], 2, codes.second, filters.second);
    b + put_column(&mut out[b..], 3, codes.third, filters.third)
}

// A letter and a number after a comma.
fn put_column_name(out: &mut [u8], letter: u8, n: u16) -> usize
    requires { 11 ≤ length out.old }
    ensures { Wrote (ascii "," ++ lettered (letter ∷ []) n) 11 out.old out.new result }
{
    let a = put_byte(out, b',');
    a + put_lettered(&mut out[a..], letter, n)
}

// The columns of `count` bands, or totals.
fn put_column_names(out: &mut [u8], letter: u8, count: u16) -> usize
    requires { 11 * count ≤ length out.old }
    ensures { Wrote (further (map (lettered (letter ∷ [])) (numbers_from 1 count))) (11 * count) out.old out.new result }
{
    let mut at = 0;
    for i in 0..count {
        at += put_column_name(&mut out[at..], letter, i + 1);
    }
    at
}

// The columns of the bands and of the totals.
pub fn put_band_columns(out: &mut [u8], bands: u16, totals: u16) -> usize
    requires totals_bound { bands + totals ≤ 48 }
    requires in_bounds { 528 ≤ length out.old }
    ensures { Wrote (further (band_columns bands totals)) 528 out.old out.new result }
{
    let a = put_column_names(out, b'B', bands);
    a + put_column_names(&mut out[a..], b'T', totals)
}

// The levels of all the words; by number, since a part of a file is bytes, and `word` reads its words.
pub fn put_levels(out: &mut [u8], words: &[u8]) -> usize
    requires words_len_bound { length (words_of words.now) ≤ 51 }
    requires in_bounds { 663 ≤ length out.old }
    ensures { Wrote (further (map level_field (words_of words.now))) 663 out.old out.new result }
{
    let mut at = 0;
    for i in 0..count(words) {
        at += put_level(&mut out[at..], word(words, i));
    }
    at
}

// A result's word after a comma, by the kind that its entry has.
fn put_result_field(out: &mut [u8], number: Number, word: u16) -> usize
    requires { 21 ≤ length out.old }
    ensures { Wrote (ascii "," ++ result_field number word) 21 out.old out.new result }
{
    match number {
        Number::Level => put_level(out, word),
        Number::Plain => put_whole(out, word as u32),
    }
}

// A result's words of the three profiles, and the line's end.
pub fn put_cells(out: &mut [u8], number: Number, first: u16, second: u16, third: u16) -> usize
    requires { 64 ≤ length out.old }
    ensures { Wrote (further (result_field number first ∷ result_field number second ∷ result_field number third ∷ []) ++ ascii "\n") 64 out.old out.new result }
{
    let a = put_result_field(out, number, first);
    let b = a + put_result_field(&mut out[a..], number, second);
    let c = b + put_result_field(&mut out[b..], number, third);
    c + put_byte(&mut out[c..], b'\n')
}
