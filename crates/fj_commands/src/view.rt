ghost use Rattle.std.specs.Prelude.{◌≡◌, OnOk};
ghost use Rattle.std.specs.Fmt.{WritesInCalls};
ghost use Rattle.fj_views.specs.Tables.{table_text};

use fj_picture::{Window, write_svg};
use fj_story::Story;
use fj_views::{write_chrome, write_dot, write_path, write_stats, write_tasks};
use std::alloc::Global;
use std::fmt;

/// Which view.
#[derive(Clone, Copy, Debug)]
pub enum View {
    /// A line for each task.
    Tasks,
    /// Counts, one fact a line.
    Stats,
    /// The path that decided the end.
    Path,
    /// A trace for Perfetto and Chrome.
    Chrome,
    /// The trees of completers, for Graphviz.
    Dot,
    /// A picture, of all events or of a window of them.
    Svg(Option<Window>),
}

/// Writes this view. An error where the writer fails, or if out of memory.
pub fn write_view<W: fmt::Write>(
    alloc: Global,
    story: &Story,
    view: View,
    out: &mut W,
) -> fmt::Result
    ensures { view ≡ View.Tasks → OnOk result (WritesInCalls W.write_str_gives out.old (table_text story.now.events) out.new) }
{
    match view {
        View::Tasks => write_tasks(story, out),
        View::Stats => write_stats(story, out),
        View::Path => write_path(alloc, story, out),
        View::Chrome => write_chrome(alloc, story, out),
        View::Dot => write_dot(story, out),
        View::Svg(window) => write_svg(alloc, story, window, out),
    }
}
