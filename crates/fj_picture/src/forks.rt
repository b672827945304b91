//! The forks of a body, as dots on its box.
use crate::page::{Band, Page};
use crate::px::{BOX, Px, ROW};
use fj_story::{Story, TaskStory};
use std::fmt;

/// The least width of ten events at which dots can be told apart.
const WIDE: Px = Px(220);

/// A dot for each fork of the band.
pub fn write_forks<W: fmt::Write>(
    story: &Story,
    page: &Page,
    band: &Band,
    out: &mut W,
) -> fmt::Result {
    if page.scale.width_of(10) < WIDE {
        return Ok(());
    }
    for task in story.tasks().iter() {
        if let Some((x, y)) = dot(story, page, band, task) {
            writeln!(out, "<circle cx=\"{x}\" cy=\"{y}\" r=\"1.3\" class=\"f\"/>")?;
        }
    }
    Ok(())
}

/// The place of the dot of a task. None if no body forked it in the band.
fn dot(story: &Story, page: &Page, band: &Band, task: &TaskStory) -> Option<(Px, Px)> {
    if !band.has(task.accepted) {
        return None;
    }
    let body = story.stretch(task.forked?.stretch)?;
    let lane = page.lane(band, body.worker)?;
    let top = lane.top.plus(ROW.times(body.depth));
    Some((page.x(band, task.accepted), top.plus(BOX).minus(Px(26))))
}
