//! Skips, and what happened to the whole pool.
use crate::page::{Band, Page};
use crate::px::{AXIS, LEFT, Px, ROOM};
use fj_story::{Story, TaskStory, What};
use std::fmt;

/// A cross for each task that was taken in the band and not run.
pub fn write_skips<W: fmt::Write>(
    story: &Story,
    page: &Page,
    band: &Band,
    out: &mut W,
) -> fmt::Result {
    for task in story.tasks().iter() {
        if let Some((x, y)) = cross(page, band, task) {
            writeln!(out, "<text x=\"{x}\" y=\"{y}\" class=\"k\">\u{d7}</text>")?;
        }
    }
    Ok(())
}

/// The place of the cross of a task. None if it was not skipped in the band.
fn cross(page: &Page, band: &Band, task: &TaskStory) -> Option<(Px, Px)> {
    let taken = task.taken?;
    if taken.stretch.is_some() || !band.has(taken.at) {
        return None;
    }
    let lane = page.lane(band, taken.worker)?;
    Some((page.x(band, taken.at), lane.top.plus(Px(125))))
}

/// A dashed line for each moment of the whole pool, and its word below it. The last word ends at the right edge or before it, and each other
/// one before the next.
pub fn write_marks<W: fmt::Write>(
    story: &Story,
    page: &Page,
    band: &Band,
    out: &mut W,
) -> fmt::Result {
    let mut free = LEFT.plus(ROOM);
    for mark in story.marks().iter().rev() {
        if band.has(mark.at) {
            let x = page.x(band, mark.at);
            write_line(band, mark.what, x, out)?;
            let width = width(mark.what);
            let end = x.plus(width.half()).min(free);
            write_word(band, mark.what, end, out)?;
            free = end.minus(width).minus(Px(60));
        }
    }
    Ok(())
}

/// The width of the word of a moment.
fn width(what: What) -> Px {
    match what {
        What::Closed => Px(500),
        What::Stopped => Px(220),
        What::Sealed => Px(220),
    }
}

/// The line of a moment.
fn write_line<W: fmt::Write>(band: &Band, what: What, x: Px, out: &mut W) -> fmt::Result {
    let top = band.top.plus(AXIS).minus(Px(50));
    let bottom = band.bottom.plus(Px(60));
    let class = if what == What::Stopped { "p q" } else { "p" };
    write!(out, "<path d=\"M{x} {top}V{bottom}\" class=\"{class}\"/>")
}

/// The word of a moment, which ends there.
fn write_word<W: fmt::Write>(band: &Band, what: What, end: Px, out: &mut W) -> fmt::Result {
    let y = band.bottom.plus(Px(160));
    let word = what.word();
    writeln!(out, "<text x=\"{end}\" y=\"{y}\" class=\"e\">{word}</text>")
}
