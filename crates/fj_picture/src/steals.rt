//! The lines that lead to stolen tasks.
use crate::page::{Band, Lane, Page};
use crate::px::{BOX, Px, ROW};
use fj_story::{Story, Stretch, Work};
use std::fmt;

/// A line from the lane that a task was stolen from to its box.
#[derive(Clone, Copy)]
struct StealLine {
    x: Px,
    from: Px,
    to: Px,
}

/// A line for each steal of the band.
pub fn write_lines<W: fmt::Write>(
    story: &Story,
    page: &Page,
    band: &Band,
    out: &mut W,
) -> fmt::Result {
    for stretch in story.stretches().iter() {
        if let Some(line) = line_of(story, page, band, stretch) {
            writeln!(
                out,
                "<path d=\"M{} {}V{}\" class=\"st\"/>",
                line.x, line.from, line.to
            )?;
        }
    }
    Ok(())
}

/// A dot where each line begins, to be written above the boxes.
pub fn write_starts<W: fmt::Write>(
    story: &Story,
    page: &Page,
    band: &Band,
    out: &mut W,
) -> fmt::Result {
    for stretch in story.stretches().iter() {
        if let Some(line) = line_of(story, page, band, stretch) {
            writeln!(
                out,
                "<circle cx=\"{}\" cy=\"{}\" r=\"2.5\" class=\"d\"/>",
                line.x, line.from
            )?;
        }
    }
    Ok(())
}

/// The line of a stretch. None if it is no body of a stolen task, or begins in another band.
fn line_of(story: &Story, page: &Page, band: &Band, stretch: &Stretch) -> Option<StealLine> {
    let Work::Body(t) = stretch.work else {
        return None;
    };
    if !band.has(stretch.begun) {
        return None;
    }
    let home = story.task(t)?.stolen_from()?;
    let thief = page.lane(band, stretch.worker)?;
    let top = thief.top.plus(ROW.times(stretch.depth));
    let (above, below) = edges(story, page.lane(band, home)?, t, stretch);
    let x = page.x(band, stretch.begun).plus(Px(6));
    if home < stretch.worker {
        Some(StealLine {
            x,
            from: below,
            to: top,
        })
    } else {
        Some(StealLine {
            x,
            from: above,
            to: top.plus(BOX),
        })
    }
}

/// The upper and the lower edge of where a stolen task comes from: the box of the body that forked it if that runs still, otherwise the lane.
fn edges(story: &Story, home: Lane, t: u64, stretch: &Stretch) -> (Px, Px) {
    match forker(story, t) {
        Some(body) if stretch.begun < story.end_of(body) => {
            let top = home.top.plus(ROW.times(body.depth));
            (top, top.plus(BOX))
        }
        _ => (
            home.top.minus(Px(15)),
            home.top.plus(ROW.times(home.rows)).minus(Px(10)),
        ),
    }
}

/// The stretch of the body that forked the task.
fn forker(story: &Story, t: u64) -> Option<&Stretch> {
    story.stretch(story.task(t)?.forked?.stretch)
}
