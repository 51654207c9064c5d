// Title: the text of block 03 where it stands in the file, or the label.
#![tactic(auto)]

ghost use Rattle.std.specs.Prelude.{◌≡◌};
ghost use Rattle.call_title.specs.Title.{title_at, Titled};

use call_check::judge::survey;
use text::read::before_null;
use words::rest;

// The place of a title in its file: `len` bytes from byte `at` on.
#[derive(Clone, Copy, PartialEq, Eq, Debug)]
pub struct Span {
    pub at: usize,
    pub len: usize,
}

// Where the title of a file stands; none where it is the label.
pub fn title_at(file: &[u8]) -> Option<Span>
    ensures { result ≡ title_at file.now }
{
    let Ok(state) = survey(file) else {
        return None;
    };
    let first = state.starts.title as usize + 1;
    let len = before_null(rest(file, first)).len();
    if len == 0 {
        return None;
    }
    Some(Span { at: 2 * first, len })
}

// The title of a file, as the part of the file that it is, or the label.
pub fn title<'a>(file: &'a [u8], label: &'a [u8]) -> &'a [u8]
    ensures { Titled file.entry label.entry result }
{
    let Some(span) = title_at(file) else {
        return label;
    };
    &file[span.at..span.at + span.len]
}
