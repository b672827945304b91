use crate::label::Named;
use fj_story::{Moment, Story, Work};
use std::fmt;

/// What a link is.
#[derive(Clone, Copy)]
pub enum LinkKind {
    /// The task is in a queue.
    Waits(u64),
    /// The worker runs a body or an action.
    Runs(usize, Work),
    /// The last arrival at the completer, from the end of a body or an action to its own action.
    Climbs(u64),
    /// The worker, free again, takes the next task.
    Takes(usize),
}

/// How a link leads to the next one.
#[derive(Clone, Copy)]
pub enum Then {
    /// The body or the action ends.
    Ends,
    /// The body forks this task.
    Forks(u64),
    /// A worker begins this task.
    Begins(u64),
    /// The action of this completer begins.
    Fires(u64),
}

/// A link of the path, from one event to another.
#[derive(Clone, Copy)]
pub struct Link {
    pub from: Moment,
    pub to: Moment,
    pub kind: LinkKind,
    pub then: Then,
}

/// Writes a link, in words, on a line.
pub fn write_link<W: fmt::Write>(story: &Story, link: &Link, out: &mut W) -> fmt::Result {
    let from = link.from;
    let to = link.to;
    write!(out, "{from}..{to} ")?;
    write_kind(story, link.kind, out)?;
    match link.kind {
        LinkKind::Waits(_) => out.write_str(", and begins\n"),
        _ => write_then(story, link.then, out),
    }
}

/// What it is.
fn write_kind<W: fmt::Write>(story: &Story, kind: LinkKind, out: &mut W) -> fmt::Result {
    match kind {
        LinkKind::Waits(t) => write!(out, "task {} waits in a queue", Named { story, t }),
        LinkKind::Runs(w, work) => {
            let what = if work.is_body() {
                "task"
            } else {
                "the action of"
            };
            let t = work.task();
            write!(out, "{what} {} runs on worker {w}", Named { story, t })
        }
        LinkKind::Climbs(t) => write!(out, "the last arrival at {}", Named { story, t }),
        LinkKind::Takes(w) => write!(out, "worker {w} is free"),
    }
}

/// To what it leads.
fn write_then<W: fmt::Write>(story: &Story, then: Then, out: &mut W) -> fmt::Result {
    match then {
        Then::Ends => out.write_str(", and ends\n"),
        Then::Forks(t) => writeln!(out, ", and forks task {}", Named { story, t }),
        Then::Begins(t) => writeln!(out, ", and task {} begins", Named { story, t }),
        Then::Fires(_) => out.write_str(", and its action begins\n"),
    }
}
