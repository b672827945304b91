//! What happened to the whole pool.
use crate::chrome::event::{Instant, POOL, push_event};
use crate::chrome::times::Times;
use fj_story::Story;
use std::alloc::Global;
use std::fmt;

/// The moments of the whole pool, the oldest first.
pub fn write_marks<W: fmt::Write>(
    alloc: Global,
    story: &Story,
    times: &Times,
    out: &mut W,
) -> fmt::Result {
    for mark in story.marks().iter() {
        let instant = Instant {
            ph: "i",
            name: mark.what.word(),
            cat: "pool",
            s: "g",
            pid: POOL,
            tid: 0,
            ts: times.at(mark.at),
        };
        push_event(alloc, &instant, out)?;
    }
    Ok(())
}
