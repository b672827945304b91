//! A trace in the Trace Event Format, which Perfetto and Chrome open.
mod bodies;
mod event;
mod flows;
mod marks;
mod threads;
mod times;

use fj_story::Story;
use std::alloc::Global;
use std::fmt;
use times::Times;

/// Writes a trace: workers and submitters are threads, a slice is a body or a completion action, and an arrow leads from where a task was
/// accepted to where it runs. Times are those of the notes; without any, the number of an event is its microsecond. An error where the writer
/// fails, or if out of memory.
///
/// It is written as it goes, an event of the trace a line. A history does not say at which worker a trigger was made.
pub fn write_chrome<W: fmt::Write>(alloc: Global, story: &Story, out: &mut W) -> fmt::Result {
    let times = Times::of(alloc, story)?;
    let written = write_all(alloc, story, &times, out);
    drop(times);
    written
}

/// The same, with these times.
fn write_all<W: fmt::Write>(
    alloc: Global,
    story: &Story,
    times: &Times,
    out: &mut W,
) -> fmt::Result {
    out.write_str("{\"displayTimeUnit\":\"ns\",\"traceEvents\":[\n")?;
    threads::write_threads(alloc, story, out)?;
    bodies::write_stretches(alloc, story, times, out)?;
    flows::write_tasks(alloc, story, times, out)?;
    marks::write_marks(alloc, story, times, out)?;
    out.write_str("\n]}\n")
}
