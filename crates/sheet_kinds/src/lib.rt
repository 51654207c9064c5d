// The lines that are made of numbers alone, as values: one writer for all kinds.
#![tactic(auto)]

ghost use Rattle.std.specs.Prelude.{◌≤◌, length};
ghost use Rattle.text.specs.Text.{Wrote};
ghost use Rattle.sheet_lines.specs.Line.{bytes};
ghost use Rattle.sheet_kinds.specs.Kinds.{line_of, Brief};

use sheet_head::put_number;
use sheet_lines::{
    put_band, put_band_heading, put_buffer_heading, put_class, put_result_heading, put_span,
    put_times, put_total,
};
use text::put::put_bytes;
use units::frequency::Centihertz;
use units::level::Tenths;
use words::Three;

// A line that is made of numbers alone.
#[derive(Clone, Copy)]
pub enum Line {
    Unit(u16),
    Number(u16),
    Version(u16),
    Function(u16),
    ResultHeading(Three),
    Times {
        first: u32,
        second: u32,
        third: u32,
    },
    Time(u32),
    Overload(u32),
    // The model is the file's number and no enum, as in `Setup`.
    BandHeading {
        model: u16,
        filter: u16,
    },
    Band {
        number: u16,
        frequency: Centihertz,
        level: u16,
    },
    Total {
        number: u16,
        level: u16,
    },
    ClassHeading,
    Class {
        profile: u16,
        from: Tenths,
        count: u32,
    },
    BufferHeading {
        codes: Three,
        filters: Three,
        bands: u16,
        totals: u16,
    },
}

#[tactic(auto, unfolding(crate::specs::Kinds::line_of, sheet_lines::specs::Lines::number_entry, sheet_lines::specs::Lines::class_heading, sheet_lines::specs::Line::bytes, sheet_lines::specs::Line::separated, sheet_fields::specs::Fields::further))]
pub fn put_line(out: &mut [u8], line: Line) -> usize
    requires brief { Brief line }
    requires in_bounds { 1024 ≤ length out.old }
    ensures { Wrote (bytes (line_of line)) 1024 out.old out.new result }
{
    match line {
        Line::Unit(v) => put_number(out, b"unit", v),
        Line::Number(v) => put_number(out, b"number", v),
        Line::Version(v) => put_number(out, b"version", v),
        Line::Function(v) => put_number(out, b"function", v),
        Line::ResultHeading(filters) => put_result_heading(out, filters),
        Line::Times {
            first,
            second,
            third,
        } => put_times(out, first, second, third),
        Line::Time(seconds) => put_span(out, b"time", seconds),
        Line::Overload(seconds) => put_span(out, b"overload", seconds),
        Line::BandHeading { model, filter } => put_band_heading(out, model, filter),
        Line::Band {
            number,
            frequency,
            level,
        } => put_band(out, number, frequency, level),
        Line::Total { number, level } => put_total(out, number, level),
        Line::ClassHeading => put_bytes(out, b"profile,from dB,count\n"),
        Line::Class {
            profile,
            from,
            count,
        } => put_class(out, profile, from, count),
        Line::BufferHeading {
            codes,
            filters,
            bands,
            totals,
        } => put_buffer_heading(out, codes, filters, bands, totals),
    }
}
