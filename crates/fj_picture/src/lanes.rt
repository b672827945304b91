//! The lanes of a band, and its axis.
use crate::page::{Band, Lane, Page};
use crate::parts::pieces;
use crate::px::{AXIS, LEFT, MARGIN, Px, ROW};
use crate::scale::Scale;
use fj_story::Moment;
use std::fmt;

/// The distances of ticks, in events.
static DISTANCES: [u64; 18] = [
    1, 2, 5, 10, 20, 50, 100, 200, 500, 1_000, 2_000, 5_000, 10_000, 20_000, 50_000, 100_000,
    200_000, 500_000,
];

/// A lane for each worker, with its name.
pub fn write_lanes<W: fmt::Write>(page: &Page, band: &Band, out: &mut W) -> fmt::Result {
    let right = page.x(band, band.end);
    for w in 0..page.workers {
        if let Some(lane) = page.lane(band, w) {
            write_lane(lane, w, right, out)?;
        }
    }
    Ok(())
}

/// The lane of a worker.
fn write_lane<W: fmt::Write>(lane: Lane, w: usize, right: Px, out: &mut W) -> fmt::Result {
    let x = LEFT.minus(Px(60));
    let y = lane.top.minus(Px(35));
    let width = right.minus(x).plus(Px(60));
    let height = ROW.times(lane.rows).plus(Px(40));
    write!(
        out,
        "<rect x=\"{x}\" y=\"{y}\" width=\"{width}\" height=\"{height}\" rx=\"3\" class=\"lane\"/>"
    )?;
    let x = MARGIN;
    let y = lane.top.plus(Px(120));
    writeln!(
        out,
        "<text x=\"{x}\" y=\"{y}\" class=\"w\">worker {w}</text>"
    )
}

/// The ticks with the numbers of their events, but none where the band begins.
pub fn write_axis<W: fmt::Write>(page: &Page, band: &Band, out: &mut W) -> fmt::Result {
    let distance = distance(&page.scale);
    let first = pieces(band.start.0, distance).max(1);
    for n in 0..pieces(page.scale.per_band, distance).saturating_add(1) {
        let at = Moment(first.saturating_add(n).saturating_mul(distance));
        if band.start < at && at <= band.end {
            write_tick(page, band, at, out)?;
        }
    }
    let y = band.top.plus(Px(100));
    let x = MARGIN;
    writeln!(out, "<text x=\"{x}\" y=\"{y}\" class=\"v\">event</text>")
}

/// The distance of ticks that stand at least 60 pixels apart.
fn distance(scale: &Scale) -> u64 {
    for distance in DISTANCES.iter() {
        if scale.width_of(*distance) >= Px(600) {
            return *distance;
        }
    }
    1_000_000
}

/// A tick.
fn write_tick<W: fmt::Write>(page: &Page, band: &Band, at: Moment, out: &mut W) -> fmt::Result {
    let x = page.x(band, at);
    let top = band.top.plus(AXIS).minus(Px(45));
    let bottom = band.bottom;
    let y = band.top.plus(Px(100));
    write!(out, "<path d=\"M{x} {top}V{bottom}\" class=\"g\"/>")?;
    writeln!(out, "<text x=\"{x}\" y=\"{y}\" class=\"a\">{at}</text>")
}
