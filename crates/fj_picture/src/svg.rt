use crate::page::{Band, Page};
use crate::window::Window;
use crate::{boxes, forks, lanes, legend, marks, steals, strip, style};
use fj_story::Story;
use std::alloc::Global;
use std::fmt;

/// Writes a picture, of the whole history or of a window of it. An error where the writer fails, or if out of memory.
///
/// Each worker has a lane, and a body that runs inside another one is a row below it. The history goes on from band to band, as a text from
/// line to line. A colour says where a task came from, or that it failed or was cancelled; an action of a completer has its own. A line leads
/// to a stolen task from the body that forked it, and dots on a body are its forks. More than 20,000 events are a strip alone.
pub fn write_svg<W: fmt::Write>(
    alloc: Global,
    story: &Story,
    window: Option<Window>,
    out: &mut W,
) -> fmt::Result {
    let page = Page::of(alloc, story, window)?;
    style::write_head(page.height, out)?;
    legend::write_title(story, &page, out)?;
    legend::write_legend(story, &page, out)?;
    if page.has_strip {
        strip::write_strip(story, &page, out)?;
    }
    for band in page.bands.iter() {
        write_band(story, &page, band, out)?;
    }
    out.write_str("</svg>\n")
}

/// A band: what lies below first.
fn write_band<W: fmt::Write>(story: &Story, page: &Page, band: &Band, out: &mut W) -> fmt::Result {
    lanes::write_lanes(page, band, out)?;
    lanes::write_axis(page, band, out)?;
    steals::write_lines(story, page, band, out)?;
    boxes::write_boxes(story, page, band, out)?;
    forks::write_forks(story, page, band, out)?;
    steals::write_starts(story, page, band, out)?;
    marks::write_skips(story, page, band, out)?;
    marks::write_marks(story, page, band, out)
}
