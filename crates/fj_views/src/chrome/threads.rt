//! The names of the process and its threads.
use crate::chrome::event::{
    Metadata, NameArgs, POOL, SortArgs, Text, push_event, push_first, submitter_thread,
};
use fj_story::Story;
use std::alloc::Global;
use std::fmt;

/// The process, its workers, and its submitters.
pub fn write_threads<W: fmt::Write>(alloc: Global, story: &Story, out: &mut W) -> fmt::Result {
    write_process(alloc, out)?;
    write_workers(alloc, story, out)?;
    write_submitters(alloc, story, out)
}

/// The name of the process.
fn write_process<W: fmt::Write>(alloc: Global, out: &mut W) -> fmt::Result {
    let name = Metadata {
        ph: "M",
        name: "process_name",
        pid: POOL,
        tid: 0,
        args: NameArgs {
            name: "fork-join pool",
        },
    };
    push_first(alloc, &name, out)
}

/// The workers, in order.
fn write_workers<W: fmt::Write>(alloc: Global, story: &Story, out: &mut W) -> fmt::Result {
    for w in 0..story.limits().workers() {
        write_thread(alloc, u64::from(w), "worker", w, out)?;
    }
    Ok(())
}

/// The submitters, behind the workers.
fn write_submitters<W: fmt::Write>(alloc: Global, story: &Story, out: &mut W) -> fmt::Result {
    for s in 0..story.limits().submitters() {
        write_thread(alloc, submitter_thread(s), "submitter", s, out)?;
    }
    Ok(())
}

/// The thread of this number, of a worker or a submitter with its own number.
fn write_thread<W: fmt::Write>(
    alloc: Global,
    tid: u64,
    whose: &str,
    n: u32,
    out: &mut W,
) -> fmt::Result {
    let named = Metadata {
        ph: "M",
        name: "thread_name",
        pid: POOL,
        tid,
        args: NameArgs {
            name: Text(format_args!("{whose} {n}")),
        },
    };
    push_event(alloc, &named, out)?;
    let sorted = Metadata {
        ph: "M",
        name: "thread_sort_index",
        pid: POOL,
        tid,
        args: SortArgs { sort_index: tid },
    };
    push_event(alloc, &sorted, out)
}
