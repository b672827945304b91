//! Bodies and completion actions, as slices of their workers.
use crate::chrome::event::{POOL, Slice, Text, push_event};
use crate::chrome::times::Times;
use crate::label::Named;
use fj_rules::{How, Status};
use fj_story::{Story, Stretch, Work};
use serde::Serialize;
use std::alloc::Global;
use std::fmt;

/// What is shown of a task.
#[derive(Drop, Serialize)]
struct TaskArgs {
    kind: &'static str,
    #[serde(skip_serializing_if = "Option::is_none")]
    parent: Option<u64>,
    count: u32,
    status: Text<Status>,
    accepted: u64,
    stolen: bool,
}

/// What is shown of a completion action.
#[derive(Drop, Serialize)]
struct HookArgs {
    how: &'static str,
}

/// The bodies and the actions, in the order in which they began.
pub fn write_stretches<W: fmt::Write>(
    alloc: Global,
    story: &Story,
    times: &Times,
    out: &mut W,
) -> fmt::Result {
    for stretch in story.stretches().iter() {
        match stretch.work {
            Work::Body(t) => write_body(alloc, story, times, stretch, t, out)?,
            Work::Hook(c) => write_hook(alloc, story, times, stretch, c, out)?,
        }
    }
    Ok(())
}

/// The body of a task.
fn write_body<W: fmt::Write>(
    alloc: Global,
    story: &Story,
    times: &Times,
    stretch: &Stretch,
    t: u64,
    out: &mut W,
) -> fmt::Result {
    let Some(task) = story.task(t) else {
        return Ok(());
    };
    let named = Named { story, t };
    let stolen = task.is_stolen();
    let body = Slice {
        ph: "X",
        name: Text(format_args!("task {named}")),
        cat: if stolen { "task,stolen" } else { "task" },
        pid: POOL,
        tid: stretch.worker as u64,
        ts: times.at(stretch.begun),
        dur: times.between(stretch.begun, story.end_of(stretch)),
        args: TaskArgs {
            kind: task.kind_word(),
            parent: task.kind.parent().map(|p| p.0),
            count: task.kind.count(),
            status: Text(task.status),
            accepted: task.accepted.0,
            stolen,
        },
    };
    push_event(alloc, &body, out)
}

/// The completion action of a completer.
fn write_hook<W: fmt::Write>(
    alloc: Global,
    story: &Story,
    times: &Times,
    stretch: &Stretch,
    c: u64,
    out: &mut W,
) -> fmt::Result {
    let named = Named { story, t: c };
    let hook = Slice {
        ph: "X",
        name: Text(format_args!("hook {named}")),
        cat: "hook",
        pid: POOL,
        tid: stretch.worker as u64,
        ts: times.at(stretch.begun),
        dur: times.between(stretch.begun, story.end_of(stretch)),
        args: HookArgs {
            how: how_word(story, c),
        },
    };
    push_event(alloc, &hook, out)
}

/// Why the action of the completer was handed out.
fn how_word(story: &Story, c: u64) -> &'static str {
    let Some(task) = story.task(c) else {
        return "zero";
    };
    match &task.fired {
        Some(fired) => match &fired.how {
            How::Zero => "zero",
            How::Complete => "complete",
        },
        None => "zero",
    }
}
