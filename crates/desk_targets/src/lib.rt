// What stands where a sheet or a slim copy is to be written. Nothing is written over a file that is not ours.
#![tactic(auto)]

pub mod load;

ghost use Rattle.std.specs.Prelude.{◌≡◌, ◌≤◌, length};
ghost use Rattle.desk_targets.specs.Target.{is_sheet, is_slim, is_ours, not_ours, IsInput, is_wanted, by_bytes, is_absent, by_error, Read, Stood};

use call_slim::slim;
use desk_lines::{Errno, Taken};
use load::load;
use std::fs::Files;
use text::read::is_same;

// What is known of a file before it is opened: whether it is a pipe or a device, whether an earlier file has its target, and
// whether a pipe or a device stands there.
#[derive(Clone, Copy, PartialEq, Eq, Debug)]
pub struct Mark {
    // Flags and no enum: `target_at` and `fetch` answer for any of them together.
    pub pipe: bool,
    pub claimed: bool,
    pub blocked: bool,
}

// What is written of a file. A match chooses by it, and no closure: the clauses of `target_at` and of `save` name it.
#[derive(Clone, Copy, PartialEq, Eq, Debug)]
pub enum Form {
    Sheet,
    Slim,
}

// Whether `id`, the device and inode of a target, is among those of the files to convert.
fn is_input(ids: &[u8], id: &[u8]) -> bool
    ensures { IsInput ids.now id.now result }
{
    ids.chunks_exact(40).any(|x| is_same(x, id))
}

fn is_sheet(bytes: &[u8]) -> bool
    ensures { result ≡ is_sheet bytes.now }
{
    bytes.starts_with(b"unit=")
}

fn is_slim(bytes: &[u8], out: &mut [u8]) -> bool
    requires { length bytes.now ≤ length out.old }
    ensures { result ≡ is_slim bytes.now }
{
    match slim(bytes, out) {
        Ok(n) => is_same(&out[0..n], bytes),
        Err(_) => false,
    }
}

#[tactic(auto, unfolding(crate::specs::Target::is_ours))]
fn is_ours(form: Form, bytes: &[u8], out: &mut [u8]) -> bool
    requires { length bytes.now ≤ length out.old }
    ensures { result ≡ is_ours form bytes.now }
{
    match form {
        Form::Sheet => is_sheet(bytes),
        Form::Slim => is_slim(bytes, out),
    }
}

#[tactic(auto, unfolding(crate::specs::Target::not_ours))]
fn not_ours(form: Form) -> Taken
    ensures { result ≡ not_ours form }
{
    match form {
        Form::Sheet => Taken::NoSheet,
        Form::Slim => Taken::NoSlim,
    }
}

// Whether a target is a file to convert that is no sheet.
#[tactic(auto, unfolding(crate::specs::Target::is_wanted))]
fn is_wanted(input: bool, bytes: &[u8]) -> bool
    ensures { result ≡ is_wanted input bytes.now }
{
    input && !is_sheet(bytes)
}

// Whether a target that was read may be written, or by what it is taken.
#[tactic(auto, unfolding(crate::specs::Target::by_bytes))]
fn by_bytes(form: Form, input: bool, bytes: &[u8], out: &mut [u8]) -> Result<(), Taken>
    requires { length bytes.now ≤ length out.old }
    ensures { result ≡ by_bytes form input bytes.now }
{
    if is_wanted(input, bytes) {
        return Err(Taken::Input);
    }
    if is_ours(form, bytes, out) {
        return Ok(());
    }
    Err(not_ours(form))
}

#[tactic(auto, unfolding(crate::specs::Target::is_absent))]
fn is_absent(error: Errno) -> bool
    ensures { result ≡ is_absent error.number }
{
    matches!(error.number, 2 | 20 | 36)
}

// A target that could not be read, by the error.
#[tactic(auto, unfolding(crate::specs::Target::by_error))]
fn by_error(error: Errno) -> Result<(), Taken>
    ensures { result ≡ by_error error }
{
    if is_absent(error) {
        return Ok(());
    }
    if error.number == 21 {
        return Err(Taken::Folder);
    }
    Err(Taken::Shut { error })
}

// How many bytes tell whether it is ours: the front of a sheet, all of a slim copy.
fn telling(form: Form) -> usize
    ensures { result ≤ 65537 }
{
    match form {
        Form::Sheet => 5,
        Form::Slim => 65537,
    }
}

// A target that no earlier file has, read into `older`. Its parameters stay apart, as those of `target_at`.
fn look<R: Files>(
    rt: &R,
    form: Form,
    input: bool,
    blocked: bool,
    path: &[u8],
    older: &mut [u8],
    out: &mut [u8],
) -> Result<(), Taken>
    requires { length older.old ≤ length out.old }
    ensures { Read form input older.new result }
{
    match load(rt, path, blocked, older) {
        Ok(n) => by_bytes(form, input, &older[0..n], out),
        Err(error) => by_error(error),
    }
}

// Whether `path`, whose device and inode is `id`, may be written, or by what it is taken. Its parameters stay apart: the struct
// that holds them, `Order`, is of the crate above.
pub fn target_at<R: Files>(
    rt: &R,
    form: Form,
    mark: Mark,
    path: &[u8],
    ids: &[u8],
    id: &[u8],
    out: &mut [u8],
) -> Result<(), Taken>
    requires { 65537 ≤ length out.old }
    ensures { Stood form mark.claimed ids.now id.now result }
{
    let input = is_input(ids, id);
    if mark.claimed {
        return Err(Taken::Claimed);
    }
    // No heap: it stands in an array of a fixed length.
    let mut older = [0u8; 65537];
    let k = telling(form);
    look(rt, form, input, mark.blocked, path, &mut older[0..k], out)
}
