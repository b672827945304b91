ghost use Rattle.std.specs.Prelude.{◌≡◌, ◌∷◌, [], ◌++◌, Some, OnOk, string_bytes};
ghost use Rattle.fj_lines.specs.declared.read.TheConstants.{LINE_FEED};
ghost use Rattle.fj_lines.specs.Lines.{HasHeadLine, head_in, mode_word};
ghost use Rattle.fj_history.specs.Headings.{heading, heading_line};

use fj_rules::{Limits, Mode};
use std::alloc::AllocError;

/// Appends the heading of a history, with the line feed: the mode and the limits of its pool.
///
/// An error comes where the text can't grow. Then a part of the line may have been appended.
pub fn push_heading(mode: Mode, limits: Limits, text: &mut String) -> Result<(), AllocError>
    ensures written { OnOk result (string_bytes text.new ≡ string_bytes text.old ++ (heading_line mode limits ++ LINE_FEED ∷ [])) }
    // The line is read as this mode and these limits.
    ensures fits { HasHeadLine (heading mode limits) }
    ensures read { head_in (heading_line mode limits) ≡ Some (heading mode limits) }
{
    let word = word_of(mode);
    let workers = limits.workers();
    let submitters = limits.submitters();
    let tasks = limits.tasks();
    let events = limits.events();
    writeln!(text, "{word} {workers} {submitters} {tasks} {events}")
}

fn word_of(mode: Mode) -> &'static str
    ensures { result.now ≡ mode_word mode }
{
    match mode {
        Mode::Async => "async",
        Mode::Joining => "joining",
    }
}
