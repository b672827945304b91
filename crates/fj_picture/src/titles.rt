//! A box in words, for who points at it.
use crate::escaped::Escaped;
use fj_rules::Owner;
use fj_story::{Story, Stretch, TaskStory, Work};
use std::fmt;

/// The title of a box.
pub fn write_box_title<W: fmt::Write>(
    story: &Story,
    stretch: &Stretch,
    out: &mut W,
) -> fmt::Result {
    let worker = stretch.worker;
    let from = stretch.begun;
    let to = story.end_of(stretch);
    out.write_str("<title>")?;
    match stretch.work {
        Work::Body(t) => {
            write_task(story, t, out)?;
            write!(out, ", ran on worker {worker} from {from} to {to}")?;
        }
        Work::Hook(c) => {
            write!(out, "completion action of {c}")?;
            write_label(story, c, out)?;
            write!(out, ", on worker {worker} from {from} to {to}")?;
        }
    }
    out.write_str("</title>")
}

/// A task, where it came from, and how it went.
fn write_task<W: fmt::Write>(story: &Story, t: u64, out: &mut W) -> fmt::Result {
    let Some(task) = story.task(t) else {
        return write!(out, "task {t}");
    };
    let kind = if task.kind.is_completer() {
        "completer"
    } else {
        "task"
    };
    let status = task.status;
    write!(out, "{kind} {t}")?;
    write_label(story, t, out)?;
    write!(out, ": {status}, ")?;
    write_origin(story, task, out)?;
    if let Some(home) = task.stolen_from() {
        write!(out, ", stolen from worker {home}")?;
    }
    match task.kind.parent() {
        Some(p) => write!(out, ", parent {}", p.0),
        None => Ok(()),
    }
}

/// How a task is called, behind its number.
fn write_label<W: fmt::Write>(story: &Story, t: u64, out: &mut W) -> fmt::Result {
    match story.label_of(t) {
        Some(label) => write!(out, " {}", Escaped(label)),
        None => Ok(()),
    }
}

/// Where a task came from.
fn write_origin<W: fmt::Write>(story: &Story, task: &TaskStory, out: &mut W) -> fmt::Result {
    let at = task.accepted;
    match &task.queue {
        Some(Owner::Sub(s)) => write!(out, "submitted by {} at {at}", s.0),
        Some(Owner::Work(_)) | None => match story.forker(task) {
            Some(by) => write!(out, "forked by {by} at {at}"),
            None => write!(out, "accepted at {at}"),
        },
    }
}
