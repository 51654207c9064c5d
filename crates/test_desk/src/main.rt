// Runs the desk on its data, task by task, and prints back what is there then. No heap: all stands in arrays of a fixed length.
#![tactic(auto)]

ghost use Rattle.std.specs.Prelude.{◌≤◌};

use desk_files::Task;
use desk_return::{Job, serve_all};
use desk_targets::load::{load, text_of};
use std::env::Env;
use std::fs::{Files, Permissions, set_permissions};
use std::os::unix::fs::PermissionsExt;
use std::process::Process;
use streams::{arg, arg_count, read_full, write_all};

// Sets what may be done with a file or a folder.
fn allow<R: Files>(rt: &R, path: &[u8], mode: u32) -> bool {
    match text_of(path) {
        Ok(path) => set_permissions(rt, path, Permissions::from_mode(mode)).is_ok(),
        Err(_) => false,
    }
}

fn say_all<P: Print>(rt: &P, all: bool) -> bool {
    if all {
        return write_all(rt, b"all\n\n");
    }
    write_all(rt, b"not all\n\n")
}

// A run of the desk; the names that did not get through stand on standard output too.
fn run<R: Env + Files + Print>(rt: &R, process: Process, job: Job, label: &[u8], ids: &[u8]) -> bool
    requires { (job.files ≤ 16384) × (job.first ≤ 16384) }
{
    let mut line = [0u8; 12514];
    let end = serve_all(rt, process, job, label, ids, &mut line, rt);
    say_all(rt, end.all)
}

// A file after its name, where it is there and can be read.
fn print_back<R: Files + Print>(rt: &R, path: &[u8], scratch: &mut [u8]) -> bool {
    match load(rt, path, false, scratch) {
        Err(_) => false,
        Ok(n) => {
            write_all(rt, path);
            write_all(rt, b":\n");
            write_all(rt, &scratch[0..n])
        }
    }
}

// What stands at the target that an argument names.
fn print_target<R: Env + Files + Print>(rt: &R, at: usize, scratch: &mut [u8]) -> bool {
    let mut path = [0u8; 4096];
    let n = arg(rt, at, &mut path);
    print_back(rt, &path[0..n], scratch)
}

// The targets of all runs.
fn print_all<R: Env + Files + Print>(rt: &R, files: usize, scratch: &mut [u8])
    requires { files ≤ 32768 }
{
    for i in 0..files {
        print_target(rt, 2 + 4 * i, scratch);
    }
}

// Four arguments for each file and its sheet, then as many for each file and its slim copy.
fn try_all<R: Env + Files + Print>(rt: &R, process: Process, files: usize, ids: &[u8])
    requires { files ≤ 4000 }
{
    allow(rt, b"shut.svn", 0);
    allow(rt, b"hidden.svn.csv", 0);
    allow(rt, b"hidden.svn.slim", 0);
    allow(rt, b"locked", 0o555);
    let checks = Job {
        task: Task::Checks,
        quiet: false,
        first: 1,
        files,
    };
    let slims = Job {
        task: Task::Slims,
        first: 1 + 4 * files,
        ..checks
    };
    let sheets = Job {
        task: Task::Sheets,
        ..checks
    };
    let quiet = Job {
        quiet: true,
        ..sheets
    };
    run(rt, process, checks, b"", ids);
    run(rt, process, slims, b"", ids);
    run(rt, process, sheets, b"Order 17", ids);
    run(rt, process, quiet, b"Order 17", ids);
    allow(rt, b"locked", 0o755);
    let mut scratch = [0u8; 65536];
    print_all(rt, 2 * files, &mut scratch);
}

fn main(rt: HostRuntime) {
    let mut ids = [0u8; 4000];
    let n = read_full(&mut rt.reader(), &mut ids);
    // More arguments than 4,000 files have are counted as one file too many.
    let files = arg_count(&rt, 32008) / 8;
    if files <= 4000 {
        try_all(&rt, rt.process(), files, &ids[0..n]);
    }
}
