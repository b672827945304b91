//! Submissions, triggers, skips, and the arrows from where a task was accepted to where it runs.
use crate::chrome::event::{Flow, Instant, POOL, Slice, Text, push_event, submitter_thread};
use crate::chrome::times::{Micros, Times};
use fj_rules::Owner;
use fj_story::{Story, TaskStory};
use serde::Serialize;
use std::alloc::Global;
use std::fmt;

/// What is shown of a submission.
#[derive(Drop, Serialize)]
struct SubmissionArgs {
    task: u64,
}

/// How each task was accepted, and its way to its worker.
pub fn write_tasks<W: fmt::Write>(
    alloc: Global,
    story: &Story,
    times: &Times,
    out: &mut W,
) -> fmt::Result {
    for (n, task) in story.tasks().iter().enumerate() {
        write_acceptance(alloc, times, n as u64, task, out)?;
        write_way(alloc, times, n as u64, task, out)?;
    }
    Ok(())
}

/// The submission of a task, or that a trigger was made, by nobody that a history names. A fork is within a body.
fn write_acceptance<W: fmt::Write>(
    alloc: Global,
    times: &Times,
    n: u64,
    task: &TaskStory,
    out: &mut W,
) -> fmt::Result {
    match &task.queue {
        Some(Owner::Sub(s)) => write_submission(alloc, times, n, task, submitter_thread(s.0), out),
        Some(Owner::Work(_)) => Ok(()),
        None => write_instant(alloc, "trigger", n, "p", 0, times.at(task.accepted), out),
    }
}

/// A submission, one event long.
fn write_submission<W: fmt::Write>(
    alloc: Global,
    times: &Times,
    n: u64,
    task: &TaskStory,
    tid: u64,
    out: &mut W,
) -> fmt::Result {
    let submission = Slice {
        ph: "X",
        name: Text(format_args!("submit {n}")),
        cat: "submit",
        pid: POOL,
        tid,
        ts: times.at(task.accepted),
        dur: times.between(task.accepted, task.accepted.next()),
        args: SubmissionArgs { task: n },
    };
    push_event(alloc, &submission, out)
}

/// The way of a task to its worker, if one took it: an arrow to its body, or that it was skipped.
fn write_way<W: fmt::Write>(
    alloc: Global,
    times: &Times,
    n: u64,
    task: &TaskStory,
    out: &mut W,
) -> fmt::Result {
    let Some(taken) = task.taken else {
        return Ok(());
    };
    if taken.stretch.is_none() {
        let tid = taken.worker as u64;
        return write_instant(alloc, "skip", n, "t", tid, times.at(taken.at), out);
    }
    let from = match &task.queue {
        Some(Owner::Sub(s)) => submitter_thread(s.0),
        Some(Owner::Work(w)) => u64::from(w.0),
        None => return Ok(()),
    };
    push_event(
        alloc,
        &flow("s", None, n, from, times.at(task.accepted)),
        out,
    )?;
    push_event(
        alloc,
        &flow("f", Some("e"), n, taken.worker as u64, times.at(taken.at)),
        out,
    )
}

/// An end of the arrow of a task.
fn flow(ph: &'static str, bp: Option<&'static str>, id: u64, tid: u64, ts: Micros) -> Flow {
    Flow {
        ph,
        bp,
        name: "handed over",
        cat: "flow",
        id,
        pid: POOL,
        tid,
        ts,
    }
}

/// An instant of a task, called by its category and the number of the task.
fn write_instant<W: fmt::Write>(
    alloc: Global,
    cat: &'static str,
    n: u64,
    s: &'static str,
    tid: u64,
    ts: Micros,
    out: &mut W,
) -> fmt::Result {
    let instant = Instant {
        ph: "i",
        name: Text(format_args!("{cat} {n}")),
        cat,
        s,
        pid: POOL,
        tid,
        ts,
    };
    push_event(alloc, &instant, out)
}
