// Writing what comes of a file: under another name first, and renamed when it is complete. Handles and what is lent stay parameters of
// their own, and paths are made in arrays of a fixed length, for the desk has no heap.
ghost use Rattle.std.specs.Prelude.{[], ◌≡◌, ◌+◌, ◌≤◌, length, List, ℕ, IfOk};
ghost use Rattle.text.specs.Text.{Wrote};
ghost use Rattle.desk_files.specs.declared.Task.TheVariants.{Sheets, Slims};
ghost use Rattle.desk_files.specs.declared.save.Fault.{Fault};
ghost use Rattle.desk_files.specs.Desk.{part_path, outcome_of, task_of, IsSystem, told, Said, Saved};

use crate::{Order, front_of};
use call_sheet::sheet;
use call_slim::slim;
use desk_lines::{Errno, Outcome};
use desk_targets::load::text_of;
use desk_targets::{Form, target_at};
use file_refusal::Refusal;
use std::fs::{File, Files, OpenFile};
use std::io::Write;
use std::process::Process;
use std::{fs, io, process};
use text::decimal::put_decimal;
use text::put::put_bytes;

// The system's number for a name that is taken.
const EEXIST: Errno = Errno { number: 17 };

// A part that was made, and how long its path is.
#[derive(Drop)]
struct Part<F: Drop> {
    file: F,
    len: usize,
}

// Why nothing is written of a file: it is refused, or the system has an error.
#[derive(Clone, Copy)]
enum Fault {
    Refused(Refusal),
    System(Errno),
}

impl From<Refusal> for Fault {
    ghost from_gives = { λ refusal fault. fault ≡ Fault.Refused refusal };

    fn from(refusal: Refusal) -> Fault {
        Fault::Refused(refusal)
    }
}

impl From<Errno> for Fault {
    ghost from_gives = { λ error fault. fault ≡ Fault.System error };

    fn from(error: Errno) -> Fault {
        Fault::System(error)
    }
}

impl From<io::Error> for Fault {
    ghost from_gives = { λ _ fault. IsSystem fault };

    fn from(error: io::Error) -> Fault {
        Fault::System(error.into())
    }
}

fn put_part_path(out: &mut [u8], path: &[u8], number: u64) -> usize
    requires { length path.now + 26 ≤ length out.old }
    ensures { Wrote (part_path path.now number) (length path.now + 26) out.old out.new result }
{
    let a = put_bytes(out, path);
    let b = a + put_bytes(&mut out[a..], b".");
    let c = b + put_decimal(&mut out[b..], number);
    c + put_bytes(&mut out[c..], b".part")
}

// A new file.
fn create<R: Files>(rt: &R, name: &[u8]) -> Result<R::File, Errno> {
    let path = text_of(name)?;
    Ok(File::options().write(true).create_new(true).open(rt, path)?)
}

// Makes the part, by the first number from this process's on that is not taken, so that no other desk writes there.
fn make_part<R: Files>(
    rt: &R,
    process: Process,
    part: &mut [u8],
    path: &[u8],
) -> Result<Part<R::File>, Errno>
    requires { length path.now + 26 ≤ length part.old }
    ensures { IfOk result (λ made. made.len ≤ length part.new) }
{
    let first = process::id(process) as u64;
    for tries in 0..1000 {
        let len = put_part_path(part, path, first + tries);
        match create(rt, &part[0..len]) {
            Ok(file) => return Ok(Part { file, len }),
            Err(EEXIST) => {}
            Err(error) => return Err(error),
        }
    }
    Err(EEXIST)
}

// All lines of a file's sheet, as many at a time as fit into `out`.
fn write_sheet<W: Write>(
    to: &mut W,
    file: &[u8],
    label: &[u8],
    out: &mut [u8],
) -> Result<Outcome, Fault>
    requires { 1024 ≤ length out.old }
    ensures { Said (outcome_of Sheets file.now label.now) (told file.now result) }
{
    let mut n = 0;
    // No plainer: only the part that finishes the sheet says that it was the last.
    loop {
        let p = sheet(file, label, n, out)?;
        to.write_all(&out[0..p.bytes])?;
        n += p.lines;
        if p.finished {
            return Ok(Outcome::Converted { lines: n });
        }
    }
}

// A file's slim copy.
fn write_slim<W: Write>(to: &mut W, file: &[u8], out: &mut [u8]) -> Result<Outcome, Fault>
    requires { length file.now ≤ length out.old }
    ensures { Said (outcome_of Slims file.now []) (told file.now result) }
{
    let bytes = slim(file, out)?;
    to.write_all(&out[0..bytes])?;
    Ok(Outcome::Copied { bytes })
}

#[tactic(auto, using(crate::proofs::DeskLaws::slim_label), unfolding(crate::specs::Desk::task_of))]
fn write<W: Write>(
    form: Form,
    to: &mut W,
    file: &[u8],
    label: &[u8],
    out: &mut [u8],
) -> Result<Outcome, Fault>
    requires { (1024 ≤ length out.old) × (length file.now ≤ length out.old) }
    ensures { Said (outcome_of (task_of form) file.now label.now) (told file.now result) }
{
    match form {
        Form::Sheet => write_sheet(to, file, label, out),
        Form::Slim => write_slim(to, file, out),
    }
}

// Gives a part its name.
fn rename<R: Files>(rt: &R, part: &[u8], path: &[u8]) -> Result<(), Errno> {
    let from = text_of(part)?;
    let to = text_of(path)?;
    Ok(fs::rename(rt, from, to)?)
}

fn remove<R: Files>(rt: &R, part: &[u8]) -> Result<(), Errno> {
    let path = text_of(part)?;
    Ok(fs::remove_file(rt, path)?)
}

// Has what was written reach the disk, closes it and gives it its name.
fn complete<R: Files>(rt: &R, to: R::File, part: &[u8], path: &[u8]) -> Result<(), Errno> {
    to.sync_all()?;
    drop(to);
    rename(rt, part, path)
}

// What was written is kept where all of it was, and removed otherwise, where the system lets it be.
#[tactic(auto, using(crate::specs::Desk::as_due, crate::specs::Desk::unwritten), unfolding(crate::specs::Desk::told))]
fn keep<R: Files>(
    rt: &R,
    to: R::File,
    written: Result<Outcome, Fault>,
    part: &[u8],
    path: &[u8],
) -> Result<Outcome, Fault>
    ensures { (file : List ℕ) → Said (told file written) (told file result) }
{
    if written.is_err() {
        drop(to);
        let _ = remove(rt, part);
        return written;
    }
    if let Err(error) = complete(rt, to, part, path) {
        let _ = remove(rt, part);
        return Err(Fault::System(error));
    }
    written
}

#[tactic(auto, using(crate::specs::Desk::unwritten), unfolding(crate::specs::Desk::told))]
fn make<R: Files>(
    rt: &R,
    process: Process,
    form: Form,
    order: &Order,
    file: &[u8],
    out: &mut [u8],
) -> Result<Outcome, Fault>
    requires { (1024 ≤ length out.old) × (length file.now ≤ length out.old) }
    ensures { Said (outcome_of (task_of form) file.now order.now.label.now) (told file.now result) }
{
    let mut scratch = [0u8; 4127];
    let Part { file: mut to, len } = make_part(rt, process, &mut scratch, order.path)?;
    let written = write(form, &mut to, file, order.label, out);
    keep(rt, to, written, &scratch[0..len], order.path)
}

// What came of a file by what writing it gave.
#[tactic(auto, unfolding(crate::specs::Desk::told))]
fn told(file: &[u8], written: Result<Outcome, Fault>) -> Outcome
    ensures { result ≡ told file.now written }
{
    match written {
        Ok(outcome) => outcome,
        Err(Fault::Refused(refusal)) => {
            let front = front_of(file);
            Outcome::Refused { refusal, front }
        }
        Err(Fault::System(error)) => Outcome::Unwritten { error },
    }
}

// The sheet or the slim copy of an accepted file, where its target is free.
#[tactic(auto, using(crate::specs::Desk::free, crate::specs::Desk::kept))]
pub fn save<R: Files>(
    rt: &R,
    process: Process,
    form: Form,
    order: &Order,
    file: &[u8],
    out: &mut [u8],
) -> Outcome
    requires { (65537 ≤ length out.old) × (length file.now ≤ length out.old) }
    ensures { Saved form order.now.mark.claimed order.now.ids.now order.now.id.now (outcome_of (task_of form) file.now order.now.label.now) result }
{
    match target_at(rt, form, order.mark, order.path, order.ids, order.id, out) {
        Ok(()) => told(file, make(rt, process, form, order, file, out)),
        Err(by) => Outcome::Kept { by },
    }
}
