//! The whole history in a strip: when each worker was busy, where it stole and failed, and which part is drawn below.
use crate::fill::Fill;
use crate::page::Page;
use crate::px::{HEADER, LEFT, MARGIN, Px, ROOM, STRIP_ROW};
use crate::window::Window;
use fj_story::{Moment, Story, Stretch, share};
use std::fmt;

/// The colour of a busy worker.
pub static BUSY: &str = "#a9bbd3";

/// The strip, a row for each worker.
pub fn write_strip<W: fmt::Write>(story: &Story, page: &Page, out: &mut W) -> fmt::Result {
    for w in 0..page.workers {
        let top = HEADER.plus(Px(40)).plus(STRIP_ROW.times(w as u64));
        let x = LEFT;
        let width = ROOM;
        writeln!(
            out,
            "<rect x=\"{x}\" y=\"{top}\" width=\"{width}\" height=\"7\" class=\"lane\"/>"
        )?;
        write_busy(story, w, top, out)?;
        write_events(story, w, top, out)?;
    }
    write_edges(story, page, out)?;
    let x = MARGIN;
    let y = HEADER
        .plus(Px(70))
        .plus(STRIP_ROW.times(page.workers as u64).half());
    writeln!(
        out,
        "<text x=\"{x}\" y=\"{y}\" class=\"w\">all of it</text>"
    )?;
    if page.bands.is_empty() {
        let x = LEFT;
        let y = page.height.minus(Px(50));
        writeln!(
            out,
            "<text x=\"{x}\" y=\"{y}\" class=\"s\">too many events to be drawn: draw a window of them</text>"
        )?;
    }
    Ok(())
}

/// Where an event is in the strip.
fn x_of(story: &Story, at: Moment) -> Px {
    LEFT.plus(Px(share(at.0, ROOM.0, story.now().next().0)))
}

/// When a worker was busy. Stretches that follow each other closely are one.
fn write_busy<W: fmt::Write>(story: &Story, w: usize, top: Px, out: &mut W) -> fmt::Result {
    write!(out, "<path fill=\"{BUSY}\" d=\"")?;
    let mut run: Option<(Px, Px)> = None;
    for stretch in story.stretches().iter() {
        if stretch.worker != w || stretch.depth > 0 {
            continue;
        }
        let from = x_of(story, stretch.begun);
        let to = x_of(story, story.end_of(stretch));
        match run {
            Some((begin, end)) if from <= end.plus(Px(7)) => run = Some((begin, to.max(end))),
            Some((begin, end)) => {
                write_run(begin, end, top, out)?;
                run = Some((from, to));
            }
            None => run = Some((from, to)),
        }
    }
    if let Some((begin, end)) = run {
        write_run(begin, end, top, out)?;
    }
    out.write_str("\"/>\n")
}

/// A box of the path.
fn write_run<W: fmt::Write>(begin: Px, end: Px, top: Px, out: &mut W) -> fmt::Result {
    let width = end.minus(begin).max(Px(3));
    write!(out, "M{begin} {top}h{width}v7h-{width}z")
}

/// Where a worker began a stolen task, or one that failed.
fn write_events<W: fmt::Write>(story: &Story, w: usize, top: Px, out: &mut W) -> fmt::Result {
    for stretch in story.stretches().iter() {
        if stretch.worker == w {
            write_event(story, stretch, top, out)?;
        }
    }
    Ok(())
}

/// The stroke of a stretch, if it is of a stolen task or one that failed.
fn write_event<W: fmt::Write>(
    story: &Story,
    stretch: &Stretch,
    top: Px,
    out: &mut W,
) -> fmt::Result {
    let class = match Fill::of(story, stretch) {
        Fill::Stolen => "os",
        Fill::Failed => "ox",
        _ => return Ok(()),
    };
    let x = x_of(story, stretch.begun);
    writeln!(out, "<path class=\"{class}\" d=\"M{x} {top}v7\"/>")
}

/// Where bands begin, and the edges of the window.
fn write_edges<W: fmt::Write>(story: &Story, page: &Page, out: &mut W) -> fmt::Result {
    for band in page.bands.iter().skip(1) {
        write_edge(story, page, band.start, "om", out)?;
    }
    if page.window == Window::whole(story) {
        return Ok(());
    }
    write_edge(story, page, page.window.from, "oe", out)?;
    write_edge(story, page, page.window.to.next(), "oe", out)
}

/// A line through the strip.
fn write_edge<W: fmt::Write>(
    story: &Story,
    page: &Page,
    at: Moment,
    class: &str,
    out: &mut W,
) -> fmt::Result {
    let x = x_of(story, at);
    let y = HEADER.plus(Px(20));
    let height = STRIP_ROW.times(page.workers as u64).plus(Px(20));
    writeln!(out, "<path class=\"{class}\" d=\"M{x} {y}v{height}\"/>")
}
