// The results that a sheet shows, by model and function: the name, the unit, the kind of number and the place of each.
#![tactic(auto)]

ghost use Rattle.std.specs.Prelude.{◌++◌, ◌≡◌, ◌≤◌, length};
ghost use Rattle.text.specs.Text.{Wrote};
ghost use Rattle.file_models.specs.Models.{columns};
ghost use Rattle.sheet_results.specs.Results.{name_of, unit_of, results945, results953, dose953, results};

use text::put::put_bytes;

#[derive(Clone, Copy, PartialEq, Eq)]
pub enum ResultName {
    Peak,
    Max,
    Min,
    Spl,
    Leq,
    Sel,
    Lex8,
    Lden,
    Ltm3,
    Ltm5,
    N,
    Ln,
    Lav,
    Tlav,
}

#[derive(Clone, Copy, PartialEq, Eq)]
pub enum UnitName {
    Decibel,
    Percent,
    Second,
}

// What a result's words are: tenths with a sign, or whole numbers without one. A match chooses by it, and no closure: `result_field` names it.
#[derive(Clone, Copy, PartialEq, Eq)]
pub enum Number {
    Level,
    Plain,
}

// A row of the results, and the offset of its words in a profile's record.
#[derive(Clone, Copy, PartialEq, Eq)]
pub struct Entry {
    pub name: ResultName,
    pub unit: UnitName,
    pub number: Number,
    pub offset: u16,
}

// A result that is a level.
macro_rules! decibels {
    ($name:ident, $offset:literal) => {
        Entry {
            name: ResultName::$name,
            unit: UnitName::Decibel,
            number: Number::Level,
            offset: $offset,
        }
    };
}

// The 945's eleven, and then the 953's ten, of which the last two are the dose meter's.
const RESULTS: [Entry; 21] = [
    decibels!(Peak, 3),
    decibels!(Max, 4),
    decibels!(Min, 5),
    decibels!(Spl, 6),
    decibels!(Leq, 7),
    decibels!(Sel, 8),
    decibels!(Lex8, 9),
    decibels!(Ltm3, 10),
    decibels!(Ltm5, 11),
    Entry {
        name: ResultName::N,
        unit: UnitName::Percent,
        number: Number::Plain,
        offset: 12,
    },
    decibels!(Ln, 13),
    decibels!(Peak, 3),
    decibels!(Max, 5),
    decibels!(Min, 6),
    decibels!(Spl, 7),
    decibels!(Leq, 8),
    decibels!(Lden, 9),
    decibels!(Ltm3, 10),
    decibels!(Ltm5, 11),
    decibels!(Lav, 12),
    decibels!(Tlav, 13),
];

#[tactic(auto, unfolding(crate::specs::Results::name_of))]
pub fn put_result_name(out: &mut [u8], name: ResultName) -> usize
    requires { 4 ≤ length out.old }
    ensures { Wrote (name_of name) 4 out.old out.new result }
{
    match name {
        ResultName::Peak => put_bytes(out, b"PEAK"),
        ResultName::Max => put_bytes(out, b"MAX"),
        ResultName::Min => put_bytes(out, b"MIN"),
        ResultName::Spl => put_bytes(out, b"SPL"),
        ResultName::Leq => put_bytes(out, b"LEQ"),
        ResultName::Sel => put_bytes(out, b"SEL"),
        ResultName::Lex8 => put_bytes(out, b"Lex8"),
        ResultName::Lden => put_bytes(out, b"Lden"),
        ResultName::Ltm3 => put_bytes(out, b"Ltm3"),
        ResultName::Ltm5 => put_bytes(out, b"Ltm5"),
        ResultName::N => put_bytes(out, b"N"),
        ResultName::Ln => put_bytes(out, b"LN"),
        ResultName::Lav => put_bytes(out, b"LAV"),
        ResultName::Tlav => put_bytes(out, b"TLAV"),
    }
}

#[tactic(auto, unfolding(crate::specs::Results::unit_of))]
pub fn put_unit(out: &mut [u8], unit: UnitName) -> usize
    requires { 2 ≤ length out.old }
    ensures { Wrote (unit_of unit) 2 out.old out.new result }
{
    match unit {
        UnitName::Decibel => put_bytes(out, b"dB"),
        UnitName::Percent => put_bytes(out, b"%"),
        UnitName::Second => put_bytes(out, b"s"),
    }
}

// The table whole, so that a caller takes it once for all its rows.
#[tactic(auto, unfolding(crate::specs::Results::results945, crate::specs::Results::results953, crate::specs::Results::dose953))]
pub fn all_results() -> [Entry; 21]
    ensures { result ≡ results945 ++ (results953 ++ dose953) }
{
    RESULTS
}

// The model and the function are the file's numbers, no enums: the clauses of `first_result` and `result_count` take them so.
// Where a model's results start in `all_results`.
pub fn first_result(model: u16) -> usize
    ensures { result ≡ columns model 0 11 }
{
    if model == 953 { 11 } else { 0 }
}

// How many of them a sheet shows.
#[tactic(auto, unfolding(crate::specs::Results::results, crate::specs::Results::results945, crate::specs::Results::results953, crate::specs::Results::dose953))]
pub fn result_count(model: u16, function: u16) -> usize
    ensures { result ≡ length (results model function) }
{
    if model != 953 {
        return 11;
    }
    if function == 4 { 10 } else { 8 }
}
