// The walk over a file, judged block by block.
ghost use Rattle.std.specs.Prelude.{◌≡◌, ◌<◌, ◌≤◌, length};
ghost use Rattle.words.specs.Words.{words_of};
ghost use Rattle.file_walk.specs.Walk.{walked};
ghost use Rattle.call_check.specs.Judge.{first_state, skipped, entered_by, seen_in, closed, judge, surveyed};
ghost use Rattle.call_check.specs.Steps.{Ends};

use crate::starts::Starts;
use file_order::order::{Due, key_of};
use file_order::setup::Setup;
use file_refusal::Refusal;
use file_rules::keeps;
use file_walk::{Cursor, Stop};
use words::word;

// What is known between two blocks.
#[derive(Clone, Copy)]
pub struct State {
    pub due: Due,
    pub setup: Setup,
    pub starts: Starts,
}

impl State {
    fn first() -> State
        ensures { result ≡ first_state }
    {
        State {
            due: Due::only(0x01),
            setup: Setup::none(),
            starts: Starts::none(),
        }
    }

    // A block that is not listed is passed over.
    fn skipped(self) -> State
        ensures { result ≡ skipped self }
    {
        State {
            due: self.due.passed_over(),
            ..self
        }
    }

    // A listed block at word `at` that was kept.
    fn entered(self, b: &[u8], at: usize) -> State
        requires { at < 65536 }
        ensures { result ≡ entered_by self at (words_of b.now) }
    {
        let key = key_of(word(b, 0));
        let setup = self.setup.learnt(b);
        State {
            due: Due::after(setup, key),
            setup,
            starts: self.starts.noted(key % 256, at as u16),
        }
    }

    // The block b, which starts at word `at`: the state after it, or its refusal.
    fn seen(self, b: &[u8], at: usize) -> Result<State, Refusal>
        requires { at < 65536 }
        ensures { result ≡ seen_in self at (words_of b.now) }
    {
        let header = word(b, 0);
        let row = self.setup.row_for(header);
        if !row.listed {
            return Ok(self.skipped());
        }
        if !self.due.has(key_of(header)) {
            return Err(Refusal { num: 4, at });
        }
        keeps(b, at, row)?;
        Ok(self.entered(b, at))
    }

    // The end of the walk.
    fn closed(self, stop: Stop) -> Result<State, Refusal>
        requires { Ends stop }
        ensures { result ≡ closed self stop }
    {
        match stop {
            Stop::End { at, left } => {
                if !self.due.has(0xFFFF) {
                    return Err(Refusal { num: 4, at });
                }
                if left != 0 {
                    return Err(Refusal { num: 9, at: at + 1 });
                }
                Ok(self)
            }
            Stop::Refused(refusal) => Err(refusal),
        }
    }
}

fn judge_blocks(file: &[u8]) -> Result<State, Refusal>
    requires { length file.now ≤ 65536 }
    ensures { result ≡ judge first_state (walked (words_of file.now)) }
{
    let mut cursor = Cursor::start();
    let mut state = State::first();
    loop {
        match cursor.step(file) {
            Ok(block) => {
                state = state.seen(block.words(file), block.start)?;
                cursor = block.next;
            }
            Err(stop) => return state.closed(stop),
        }
    }
}

// The file's state at its end, or its first fault.
pub fn survey(file: &[u8]) -> Result<State, Refusal>
    ensures { result ≡ surveyed file.now }
{
    if file.len() % 2 == 1 {
        return Err(Refusal { num: 1, at: 0 });
    }
    if 65536 < file.len() {
        return Err(Refusal { num: 1, at: 0 });
    }
    judge_blocks(file)
}
