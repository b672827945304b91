//! The command that writes a view of a history.
ghost use Rattle.std.specs.Prelude.{◌≡◌, ◌⊎◌, ℕ, List, Some, IfOk, IfSome, OnErr, string_bytes};
ghost use Rattle.std.specs.Io.KnownBytes.{Appends};
ghost use Rattle.fj_streams.specs.Calls.{HasFailed};
ghost use Rattle.fj_streams.specs.Tells.{seen};
ghost use Rattle.fj_check.specs.Checks.{FailsToRead};
ghost use Rattle.fj_views.specs.Tables.{table_text};
ghost use Rattle.fj_commands.specs.Statuses.{EndsView, HasNotes, HasWindow, IsUnviewed, IsWritten};

use crate::answer::{answered, told};
use crate::check_command::told_of_fault;
use crate::notes_file::{NoNotes, notes_in, told_of_none};
use crate::view::{View, write_view};
use fj_arguments::{ViewName, ViewOptions};
use fj_picture::Window;
use fj_story::{Moment, Notes, Story, read_story};
use fj_streams::{Sink, Source};
use std::alloc::{AllocError, Global};
use std::rt::Files;

const NO_VIEW: &str = "no such view: there are tasks, stats, path, chrome, dot and svg\n";

const NO_PICTURE: &str = "--from and --to are of svg alone\n";

/// Reads the notes that the options name and a history, each to its end, writes a view of it, and answers the exit status; of what is no
/// history what a check writes and answers.
pub fn run_view<F: Files, R: Source, W: Sink, E: Sink>(
    files: &F,
    alloc: Global,
    options: ViewOptions<'_>,
    input: &mut R,
    out: &mut W,
    err: &mut E,
) -> u8
    ensures ends { EndsView options.entry result (R.remaining input.old) (R.remaining input.new) (W.contents out.old) (W.contents out.new) }
    ensures failed { result ≡ 5 → (FailsToRead (seen R.remaining R.calls input.old input.new) ⊎ HasFailed (W.calls out.old) (W.calls out.new)) ⊎ HasNotes options.entry }
{
    let view = match view_of(options) {
        Ok(view) => view,
        Err(text) => return told(err, text, 2),
    };
    let notes = match notes_of(files, alloc, options) {
        Ok(notes) => notes,
        Err(none) => return told_of_none(none, err),
    };
    match read_story(alloc, input) {
        Ok(mut story) => {
            story.set_notes(notes);
            shown(text_of(alloc, &story, view), out, err)
        }
        Err(fault) => told_of_fault(alloc, fault, out, err),
    }
}

/// The view that the options ask for. An error, in words, if they name none, or a window for one that is no picture.
fn view_of(options: ViewOptions<'_>) -> Result<View, &'static str>
    ensures tasks { IfOk result (λ view. options.entry.name ≡ Some ViewName.Tasks → view ≡ View.Tasks) }
    ensures none { OnErr result (IsUnviewed options.entry) }
{
    let Some(name) = options.name else {
        return Err(NO_VIEW);
    };
    match (name, window_of(options)) {
        (ViewName::Svg, window) => Ok(View::Svg(window)),
        (_, Some(_)) => Err(NO_PICTURE),
        (ViewName::Tasks, None) => Ok(View::Tasks),
        (ViewName::Stats, None) => Ok(View::Stats),
        (ViewName::Path, None) => Ok(View::Path),
        (ViewName::Chrome, None) => Ok(View::Chrome),
        (ViewName::Dot, None) => Ok(View::Dot),
    }
}

/// The window that the options ask for. None for all events.
fn window_of(options: ViewOptions<'_>) -> Option<Window>
    ensures { IfSome result (λ window. HasWindow options.entry) }
{
    if options.from == 1 && options.to == u32::MAX {
        return None;
    }
    Some(Window {
        from: Moment(u64::from(options.from)),
        to: Moment(u64::from(options.to)),
    })
}

/// The notes that the options name, none if they name no file.
fn notes_of<F: Files>(files: &F, alloc: Global, options: ViewOptions<'_>) -> Result<Notes, NoNotes>
    ensures { OnErr result (HasNotes options.entry) }
{
    match options.notes {
        Some(name) => notes_in(files, alloc, name),
        None => Ok(Notes::new(alloc)),
    }
}

/// The text of a view. An error only if out of memory: nothing else fails in a text.
fn text_of(alloc: Global, story: &Story, view: View) -> Result<String, AllocError>
    ensures { view ≡ View.Tasks → IfOk result (λ text. string_bytes text ≡ table_text story.now.events) }
{
    let mut text = String::new(alloc);
    match write_view(alloc, story, view, &mut text) {
        Ok(()) => Ok(text),
        Err(_) => Err(AllocError),
    }
}

/// Writes the text of a view, and answers the exit status.
fn shown<W: Sink, E: Sink>(text: Result<String, AllocError>, out: &mut W, err: &mut E) -> u8
    ensures status { (result ≡ 0) ⊎ ((result ≡ 4) ⊎ (result ≡ 5)) }
    ensures written { result ≡ 0 → IsWritten (W.contents out.old) (W.contents out.new) }
    ensures text { (bytes : List ℕ) → IfOk text (λ s. string_bytes s ≡ bytes) → result ≡ 0 → Appends (W.contents out.old) (W.contents out.new) bytes }
    ensures failed { result ≡ 5 → HasFailed (W.calls out.old) (W.calls out.new) }
{
    match text {
        Ok(text) => answered(Ok(text), out, err),
        Err(_) => told(err, "out of memory\n", 4),
    }
}
