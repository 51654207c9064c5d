// Check: acceptance with an outline of the file, or a refusal.
ghost use Rattle.std.specs.Prelude.{◌≡◌};
ghost use Rattle.call_check.specs.Check.{Checked};

use crate::judge::survey;
use crate::starts::Starts;
use file_refusal::Refusal;

// What document 01 calls the record: the function, and the starts of the listed blocks.
#[derive(Clone, Copy)]
pub struct Outline {
    // The file's number and no enum, as in `Setup`.
    pub function: u16,
    pub starts: Starts,
}

// Whether a file is accepted, with its outline, or its first fault.
pub fn check(file: &[u8]) -> Result<Outline, Refusal>
    ensures { Checked file.now result }
{
    let state = survey(file)?;
    let function = state.setup.function;
    let starts = state.starts;
    Ok(Outline { function, starts })
}
