// Reading and writing bytes as far as they go, and the arguments of a program. No heap: what is read goes into arrays of a fixed length.
#![tactic(auto)]

ghost use Rattle.std.specs.Prelude.{◌≤◌, length};

use std::env::{Env, FillError};
use std::io::Read;

// As many bytes as there are, or as fit into `held`; how many. A read that fails is taken for the end.
pub fn read_full<R: Read>(from: &mut R, held: &mut [u8]) -> usize
    ensures { result ≤ length held.new }
{
    let mut at = 0;
    // No plainer: a step is as long as what a read gave, so no range says the places.
    while at < held.len() {
        match from.read(&mut held[at..]) {
            Ok(0) | Err(_) => break,
            Ok(n) => at += n,
        }
    }
    at
}

// Whether all bytes were written; no plainer as a Result, since no caller asks for the error.
pub fn write_all<P: Print>(to: &P, bytes: &[u8]) -> bool {
    to.write_all(bytes).is_ok()
}

// Argument i at the front of `held`, and its length; 0 where there is none, or where it is longer: no plainer as an Option, since to
// the callers an absent argument is an empty one.
pub fn arg<E: Env>(rt: &E, i: usize, held: &mut [u8]) -> usize
    ensures { result ≤ length held.new }
{
    rt.arg(i, held).unwrap_or(0)
}

// How many arguments there are, the program's name among them, and `most` where there are more. By number, which is how one is asked for.
pub fn arg_count<E: Env>(rt: &E, most: usize) -> usize
    ensures { result ≤ most }
{
    let mut front = [0u8; 1];
    for n in 0..most {
        if let Err(FillError::NotPresent) = rt.arg(n, &mut front) {
            return n;
        }
    }
    most
}
