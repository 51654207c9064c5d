// Reading a whole file.
ghost use Rattle.std.specs.Prelude.{◌≡◌, MatchResult, length};
ghost use Rattle.desk_targets.specs.Target.{Fits};

use desk_lines::Errno;
use std::fs::{File, Files};
use std::io::{Error, Read};
use std::str::from_utf8;

// The system's number for bytes that are no text.
const EILSEQ: Errno = Errno { number: 84 };

// The system's number for a pipe.
const ESPIPE: Errno = Errno { number: 29 };

// A number of the system's; 0 for one below. Nothing here asks for it any more, but a public function stays.
pub fn natural(n: i32) -> u32 {
    u32::try_from(n).unwrap_or(0)
}

// The system's number of an error; 5, a fault of the disk, where it names none.
pub fn error(e: &Error) -> Errno {
    Errno::from(*e)
}

// A name as text; the library opens no other.
pub fn text_of(name: &[u8]) -> Result<&str, Errno>
    ensures { MatchResult result (λ text. text.now ≡ name.now) (λ error. error.number ≡ 84) }
{
    from_utf8(name).map_err(|_| EILSEQ)
}

// As many bytes as there are, or as fit into `held`. An error is not taken for the end of the file.
pub fn load_open<R: Read>(from: &mut R, held: &mut [u8]) -> Result<usize, Errno>
    ensures { Fits (length held.new) result }
{
    let mut at = 0;
    // No plainer: the library's `read_to_end` needs a heap, and its `read_exact` takes the end of the file for an error.
    while at < held.len() {
        match from.read(&mut held[at..])? {
            0 => return Ok(at),
            n => at += n,
        }
    }
    Ok(at)
}

// A file by its name. A pipe or a device is not opened, since that might wait: it is told by the system's number for a pipe.
pub fn load<R: Files>(rt: &R, name: &[u8], pipe: bool, held: &mut [u8]) -> Result<usize, Errno>
    ensures { Fits (length held.new) result }
{
    if pipe {
        return Err(ESPIPE);
    }
    let path = text_of(name)?;
    let mut file = File::open(rt, path)?;
    load_open(&mut file, held)
}
