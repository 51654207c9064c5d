// Sheet: the lines of a file's sheet, as many whole ones as fit.
#![tactic(auto)]

ghost use Rattle.std.specs.Prelude.{◌≤◌, length, drop};
ghost use Rattle.paging.specs.Fit.{Filled};
ghost use Rattle.sheet_page.specs.Sheet.{sheet_texts};
ghost use Rattle.call_sheet.specs.Reply.{Sheeted};
ghost use Rattle.sheet_sections.specs.Given.{IsAcceptedWith};

use call_check::judge::{State, survey};
use file_refusal::Refusal;
use paging::fit::Progress;
use paging::run::Run;
use sheet_sections::{
    buffer_section, head_section, result_section, spectrum_section, statistics_section,
};

// Section after section, from line n on.
fn fill_sheet<'a>(out: &mut [u8], file: &'a [u8], label: &'a [u8], state: State, n: u32) -> Progress
    requires { IsAcceptedWith file.now state × (length label.now ≤ 507) }
    ensures { Filled (drop n (sheet_texts file.now label.now)) out.old out.new result }
{
    let start = Run::start(n as usize);
    let head = head_section(out, start, file, label, state);
    let results = result_section(out, head, file, state);
    let spectrum = spectrum_section(out, results, file, state);
    let statistics = statistics_section(out, spectrum, file, state);
    let end = buffer_section(out, statistics, file, state);
    Progress {
        lines: end.lines as u32,
        bytes: end.bytes,
        finished: end.all,
    }
}

// The answer for an accepted file.
fn answer<'a>(
    file: &'a [u8],
    label: &'a [u8],
    state: State,
    n: u32,
    out: &mut [u8],
) -> Result<Progress, Refusal>
    requires { IsAcceptedWith file.now state }
    ensures { Sheeted file.now label.now n out.old out.new result }
{
    if 507 < label.len() {
        return Err(Refusal { num: 10, at: 0 });
    }
    if out.len() < 1024 {
        return Err(Refusal { num: 11, at: 0 });
    }
    Ok(fill_sheet(out, file, label, state, n))
}

// Writes the lines of the file's sheet from line n on, as many whole ones as fit.
pub fn sheet<'a>(
    file: &'a [u8],
    label: &'a [u8],
    n: u32,
    out: &mut [u8],
) -> Result<Progress, Refusal>
    ensures { Sheeted file.now label.now n out.old out.new result }
{
    let state = survey(file)?;
    answer(file, label, state, n, out)
}
