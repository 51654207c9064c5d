// The four calls for callers from outside: an answer as a struct that C and Rust share (include/meter.h).
#![tactic(auto)]

ghost use Rattle.std.specs.Prelude.{◌≡◌, length};
ghost use Rattle.call_check.specs.Check.{verdict};
ghost use Rattle.call_check.specs.Starts.{starts_in};
ghost use Rattle.call_title.specs.Title.{title_at};
ghost use Rattle.meter.specs.Exports.{check_reply, title_reply, SheetGiven, SlimGiven};

use call_check::check::check;
use call_check::starts::Starts;
use call_sheet::sheet;
use call_slim::slim;
use call_title::{Span, title_at};
use std::array;

// The C interface: four functions and their structs, in which 0 or a flag stands for what an answer does not have.

// Check's answer. `refusal` is 0 for an accepted file; `function` is 1 to 4, and 0 in a refused file; `starts` are those of 01, 02, 03,
// 04, 05, 07, 0E or 10, 09 and 0F, 65,535 for an absent block and in a refused file.
#[repr(C)]
#[derive(Clone, Copy)]
pub struct CheckReply {
    pub refusal: u8,
    pub function: u8,
    pub starts: [u16; 9],
    pub at: u32,
}

// Where Title's text stands: `len` bytes from byte `at` on, of the file or of the label.
#[repr(C)]
#[derive(Clone, Copy)]
pub struct TitleReply {
    pub from_file: bool,
    pub at: usize,
    pub len: usize,
}

#[repr(C)]
#[derive(Clone, Copy)]
pub struct SheetReply {
    pub refusal: u8,
    pub finished: bool,
    pub at: u32,
    pub lines: u32,
    pub bytes: usize,
}

#[repr(C)]
#[derive(Clone, Copy)]
pub struct SlimReply {
    pub refusal: u8,
    pub at: u32,
    pub bytes: usize,
}

// The starts of the record, in its order.
fn starts_of(starts: Starts) -> [u16; 9]
    ensures { result ≡ starts_in starts }
{
    array::from_fn(|place| starts.start(place))
}

#[unsafe(no_mangle)]
#[tactic(auto, using(crate::proofs::FieldLaws::accepted_function, crate::proofs::FieldLaws::checked_near, call_check::proofs::Answers::checked_verdict), unfolding(crate::specs::Exports::check_reply))]
pub extern "C" fn meter_check(file: &[u8]) -> CheckReply
    ensures { result ≡ check_reply (verdict file.now) }
{
    match check(file) {
        Ok(r) => CheckReply {
            refusal: 0,
            function: r.function as u8,
            starts: starts_of(r.starts),
            at: 0,
        },
        Err(r) => CheckReply {
            refusal: r.num,
            function: 0,
            starts: [65535; 9],
            at: r.at as u32,
        },
    }
}

#[unsafe(no_mangle)]
#[tactic(auto, unfolding(crate::specs::Exports::title_reply))]
pub extern "C" fn meter_title(file: &[u8], label: &[u8]) -> TitleReply
    ensures { result ≡ title_reply (length label.now) (title_at file.now) }
{
    match title_at(file) {
        Some(Span { at, len }) => TitleReply {
            from_file: true,
            at,
            len,
        },
        None => TitleReply {
            from_file: false,
            at: 0,
            len: label.len(),
        },
    }
}

#[unsafe(no_mangle)]
pub extern "C" fn meter_sheet<'a>(
    file: &'a [u8],
    label: &'a [u8],
    n: u32,
    out: &mut [u8],
) -> SheetReply
    ensures { SheetGiven file.now label.now n out.old out.new result }
{
    match sheet(file, label, n, out) {
        Ok(p) => SheetReply {
            refusal: 0,
            finished: p.finished,
            at: 0,
            lines: p.lines,
            bytes: p.bytes,
        },
        Err(r) => SheetReply {
            refusal: r.num,
            finished: false,
            at: r.at as u32,
            lines: 0,
            bytes: 0,
        },
    }
}

#[unsafe(no_mangle)]
pub extern "C" fn meter_slim(file: &[u8], out: &mut [u8]) -> SlimReply
    ensures { SlimGiven file.now out.old out.new result }
{
    match slim(file, out) {
        Ok(bytes) => SlimReply {
            refusal: 0,
            at: 0,
            bytes,
        },
        Err(refusal) => SlimReply {
            refusal: refusal.num,
            at: refusal.at as u32,
            bytes: 0,
        },
    }
}
