//! The title, and what the colours and signs that occur stand for.
use crate::fill::{FILLS, Fill};
use crate::page::Page;
use crate::px::Px;
use crate::strip::BUSY;
use crate::window::Window;
use fj_story::{Story, TaskStory};
use std::fmt;

/// A number and a noun, with an `s` unless it is one.
#[derive(Clone, Copy)]
struct Counted(u64, &'static str);

impl fmt::Display for Counted {
    fn fmt<W: fmt::Write>(&self, f: &mut fmt::Formatter<W>) -> fmt::Result {
        let n = self.0;
        let noun = self.1;
        write!(f, "{n} {noun}")?;
        if n == 1 { Ok(()) } else { f.write_str("s") }
    }
}

/// The title: how large the history is, and what it comes to.
pub fn write_title<W: fmt::Write>(story: &Story, page: &Page, out: &mut W) -> fmt::Result {
    let tasks = Counted(story.tasks().len() as u64, "task");
    let workers = Counted(story.workers().len() as u64, "worker");
    let mode = story.mode_word();
    write!(
        out,
        "<text x=\"24\" y=\"34\" class=\"t\">{tasks} on {workers}</text>\n<text x=\"24\" y=\"54\" class=\"s\">{mode} mode \u{b7} "
    )?;
    if page.window != Window::whole(story) {
        let from = page.window.from;
        let to = page.window.to;
        write!(out, "{from} to {to} of ")?;
    }
    write_measures(story, out)
}

/// The rest of the title: how much happened.
fn write_measures<W: fmt::Write>(story: &Story, out: &mut W) -> fmt::Result {
    let events = Counted(story.now().0, "event");
    let steals = Counted(story.steals() as u64, "steal");
    let busy = Px(story.busy_share(10));
    let most = Counted(story.most_queued().tasks, "task");
    writeln!(
        out,
        "{events} \u{b7} {steals} \u{b7} on average {busy} workers busy \u{b7} at most {most} queued</text>"
    )
}

/// A row of what occurs in the picture.
pub fn write_legend<W: fmt::Write>(story: &Story, page: &Page, out: &mut W) -> fmt::Result {
    if page.bands.is_empty() {
        return write_strip_legend(story, page, out);
    }
    let mut x = Px(240);
    for fill in FILLS {
        if occurs(story, page, fill) {
            x = write_sample(of_fill(fill), x, out)?;
        }
    }
    if story.tasks().iter().any(|task| is_skipped_in(task, page)) {
        x = write_skipped(x, out)?;
    }
    if story.tasks().iter().any(|task| is_forked_in(task, page)) {
        write_forks(x, out)?;
    }
    Ok(())
}

/// A row of what occurs in the strip.
fn write_strip_legend<W: fmt::Write>(story: &Story, page: &Page, out: &mut W) -> fmt::Result {
    let busy = Sample {
        colour: BUSY,
        words: "busy",
        width: Px(760),
        round: 2,
    };
    let mut x = write_sample(busy, Px(240), out)?;
    if occurs(story, page, Fill::Stolen) {
        let stolen = Sample {
            words: "begins a stolen task",
            width: Px(1_620),
            ..of_fill(Fill::Stolen)
        };
        x = write_sample(stolen, x, out)?;
    }
    if occurs(story, page, Fill::Failed) {
        let failed = Sample {
            words: "begins a task that fails",
            ..of_fill(Fill::Failed)
        };
        write_sample(failed, x, out)?;
    }
    Ok(())
}

/// Whether the task was skipped in the window.
fn is_skipped_in(task: &TaskStory, page: &Page) -> bool {
    match task.taken {
        Some(taken) => taken.stretch.is_none() && page.window.has(taken.at),
        None => false,
    }
}

/// Whether a body forked the task in the window.
fn is_forked_in(task: &TaskStory, page: &Page) -> bool {
    task.forked.is_some() && page.window.has(task.accepted)
}

/// Whether a stretch in the window has this fill.
fn occurs(story: &Story, page: &Page, fill: Fill) -> bool {
    story.stretches().iter().any(|stretch| page.shows(story, stretch)
        && Fill::of(story, stretch) == fill)
}

/// A box of the legend, its words, and the room that both take.
#[derive(Clone, Copy)]
struct Sample {
    colour: &'static str,
    words: &'static str,
    width: Px,
    /// The radius of its corners, in pixels.
    round: u64,
}

/// The sample of a fill.
fn of_fill(fill: Fill) -> Sample {
    let (words, width) = match fill {
        Fill::Submitted => ("submitted", Px(1_080)),
        Fill::Own => ("from the own queue", Px(1_580)),
        Fill::Stolen => ("stolen, from the lane where its line begins", Px(2_880)),
        Fill::Hook => ("completion action", Px(1_440)),
        Fill::Failed => ("failed", Px(800)),
        Fill::Cancelled => ("cancelled", Px(1_000)),
    };
    Sample {
        colour: fill.colour(),
        words,
        width,
        round: if fill == Fill::Hook { 6 } else { 2 },
    }
}

/// A box of the legend and its words. Answers where the next one stands.
fn write_sample<W: fmt::Write>(sample: Sample, x: Px, out: &mut W) -> Result<Px, fmt::Error> {
    let Sample {
        colour,
        words,
        width,
        round,
    } = sample;
    let text = x.plus(Px(260));
    writeln!(
        out,
        "<rect x=\"{x}\" y=\"71\" width=\"20\" height=\"12\" rx=\"{round}\" fill=\"{colour}\"/><text x=\"{text}\" y=\"81\" class=\"l\">{words}</text>"
    )?;
    Ok(x.plus(width))
}

/// The cross of a skipped task and its word. Answers where the next sample stands.
fn write_skipped<W: fmt::Write>(x: Px, out: &mut W) -> Result<Px, fmt::Error> {
    let cross = x.plus(Px(60));
    let text = x.plus(Px(200));
    writeln!(
        out,
        "<text x=\"{cross}\" y=\"82\" class=\"k\">\u{d7}</text>\n<text x=\"{text}\" y=\"81\" class=\"l\">skipped</text>"
    )?;
    Ok(x.plus(Px(900)))
}

/// A box with dots for forks.
fn write_forks<W: fmt::Write>(x: Px, out: &mut W) -> fmt::Result {
    let colour = Fill::Own.colour();
    let first = x.plus(Px(60));
    let second = x.plus(Px(120));
    let text = x.plus(Px(260));
    writeln!(
        out,
        "<rect x=\"{x}\" y=\"71\" width=\"20\" height=\"12\" rx=\"1.5\" fill=\"{colour}\"/><circle cx=\"{first}\" cy=\"79.8\" r=\"1.5\" class=\"f\"/><circle cx=\"{second}\" cy=\"79.8\" r=\"1.5\" class=\"f\"/><text x=\"{text}\" y=\"81\" class=\"l\">where it forks</text>"
    )
}
