// Lines written section after section: how many are still to be passed over, and how far the writing came. A section takes a
// run and the whole output, and hands the run back.
ghost use Rattle.std.specs.Prelude.{List, [], ◌∷◌, ℕ, length, ◌≡◌, ◌≤◌, ◌<◌};
ghost use Rattle.paging.specs.Fit.{Puts};
ghost use Rattle.paging.specs.Run.{start_run, first_of, passed_by, writes_next, after_by, Fitting, Inside, Continued};

use crate::fit::fit;

// How many lines are still to be passed over; how many lines and bytes were written; whether every line so far that was not
// passed over was written: a flag, since lines and bytes count in both cases.
// A run and its output stay two parameters: the clauses of the sections, as `head_section`, name `out.old`, `out.new` and `run`.
#[derive(Clone, Copy, PartialEq, Eq, Debug)]
pub struct Run {
    pub skip: usize,
    pub lines: usize,
    pub bytes: usize,
    pub all: bool,
}

impl Run {
    #[tactic(auto, unfolding(crate::specs::Run::start_run))]
    pub fn start(n: usize) -> Run
        ensures { result ≡ start_run n }
    {
        Run {
            skip: n,
            lines: 0,
            bytes: 0,
            all: true,
        }
    }

    // Whether the next line is one to write.
    #[tactic(auto, unfolding(crate::specs::Run::writes_next))]
    pub fn writes(self) -> bool
        ensures { result ≡ writes_next self }
    {
        self.all && self.skip == 0
    }

    // The first of `count` lines that is not passed over; `count` where all are.
    #[tactic(auto, unfolding(crate::specs::Run::first_of))]
    pub fn first(self, count: usize) -> usize
        ensures { result ≡ first_of self count }
    {
        self.skip.min(count)
    }

    // Past `count` lines.
    #[tactic(auto, unfolding(crate::specs::Run::passed_by))]
    pub fn passed(self, count: usize) -> Run
        ensures { result ≡ passed_by self count }
    {
        Run {
            skip: self.skip.saturating_sub(count),
            ..self
        }
    }

    // Past a line that was tried.
    #[tactic(auto, unfolding(crate::specs::Run::after_by))]
    pub fn after(self, tried: Option<usize>) -> Run
        requires { (self.lines < 9223372036854775808) × Fitting self 9223372036854775807 tried }
        ensures { result ≡ after_by self tried }
    {
        match tried {
            Some(n) => Run {
                lines: self.lines + 1,
                bytes: self.bytes + n,
                ..self
            },
            None => Run { all: false, ..self },
        }
    }

    // Past the next line, of at most N bytes, which is tried where it is one to write.
    pub fn write_line<const N: usize, W: FnOnce(&mut [u8]) -> usize>(
        self,
        out: &mut [u8],
        put: W,
    ) -> Run
        requires inside { Inside self out.old }
        requires array { N < 9223372036854775808 }
        requires puts { (line : List ℕ) × Puts W.FnOnce put N line }
        ensures { (line : List ℕ) → Puts W.FnOnce put N line → Continued (line ∷ []) out.old out.new self result }
    {
        if !self.writes() {
            return self.passed(1);
        }
        let at = self.bytes;
        self.after(fit::<N, W>(&mut out[at..], put))
    }
}
