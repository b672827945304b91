//! The boxes of bodies and completion actions.
use crate::escaped::Escaped;
use crate::fill::Fill;
use crate::page::{Band, Page};
use crate::px::{BOX, Px, ROW};
use crate::titles::write_box_title;
use fj_story::{Story, Stretch, Work};
use std::fmt;

/// Where a box is.
#[derive(Clone, Copy)]
struct BoxPlace {
    x: Px,
    top: Px,
    width: Px,
    /// Whether it goes on from the band before.
    goes_on: bool,
}

/// A box for each stretch that reaches into the band.
pub fn write_boxes<W: fmt::Write>(
    story: &Story,
    page: &Page,
    band: &Band,
    out: &mut W,
) -> fmt::Result {
    for stretch in story.stretches().iter() {
        if let Some(place) = place_of(story, page, band, stretch) {
            write_box(story, stretch, place, out)?;
        }
    }
    Ok(())
}

/// Where the box of a stretch is. None if it does not reach into the band.
fn place_of(story: &Story, page: &Page, band: &Band, stretch: &Stretch) -> Option<BoxPlace> {
    let end = story.end_of(stretch);
    if stretch.begun >= band.end || end <= band.start {
        return None;
    }
    let lane = page.lane(band, stretch.worker)?;
    let x = page.x(band, stretch.begun.max(band.start));
    let full = page.x(band, end.min(band.end)).minus(x);
    let width = if full > Px(14) {
        full.minus(Px(6))
    } else {
        full
    };
    Some(BoxPlace {
        x,
        top: lane.top.plus(ROW.times(stretch.depth)),
        width: width.max(Px(8)),
        goes_on: stretch.begun < band.start,
    })
}

/// A box, its name where that has room, and its title.
fn write_box<W: fmt::Write>(
    story: &Story,
    stretch: &Stretch,
    place: BoxPlace,
    out: &mut W,
) -> fmt::Result {
    write_shape(story, stretch, place, out)?;
    write_name(story, stretch.work.task(), place, out)?;
    write_box_title(story, stretch, out)?;
    out.write_str("</g>\n")
}

/// The box itself: with round ends for an action, dashed while it goes on.
fn write_shape<W: fmt::Write>(
    story: &Story,
    stretch: &Stretch,
    place: BoxPlace,
    out: &mut W,
) -> fmt::Result {
    let radius = match stretch.work {
        Work::Body(_) => Px(15),
        Work::Hook(_) => Px(60),
    };
    let radius = radius.min(place.width.half());
    let class = if stretch.ended.is_some() { "b" } else { "o" };
    let colour = Fill::of(story, stretch).colour();
    let x = place.x;
    let y = place.top;
    let width = place.width;
    let height = BOX;
    write!(
        out,
        "<g><rect x=\"{x}\" y=\"{y}\" width=\"{width}\" height=\"{height}\" rx=\"{radius}\" fill=\"{colour}\" class=\"{class}\"/>"
    )
}

/// How the task is called, or its number where that has no room or the task no name.
fn write_name<W: fmt::Write>(story: &Story, t: u64, place: BoxPlace, out: &mut W) -> fmt::Result {
    if let Some(label) = story.label_of(t)
        && write_text(&Escaped(label), text_width(label.len() as u64), place, out)?
    {
        return Ok(());
    }
    write_text(&t, number_width(t), place, out)?;
    Ok(())
}

/// A text of this width, if it has room: at the beginning of a long box, in the middle of a short one.
fn write_text<T: fmt::Display, W: fmt::Write>(
    text: &T,
    needed: Px,
    place: BoxPlace,
    out: &mut W,
) -> Result<bool, fmt::Error> {
    let (class, sign, indent, room) = if place.goes_on {
        ("m z", "\u{2039} ", Px(40), needed.plus(Px(100)))
    } else if place.width > needed.max(Px(700)) {
        ("m", "", Px(50), needed)
    } else {
        ("c", "", place.width.half(), needed)
    };
    if place.width < room {
        return Ok(false);
    }
    let x = place.x.plus(indent);
    let y = place.top.plus(Px(112));
    write!(
        out,
        "<text x=\"{x}\" y=\"{y}\" class=\"{class}\">{sign}{text}</text>"
    )?;
    Ok(true)
}

/// The width of a number in a box.
fn number_width(n: u64) -> Px {
    text_width(u64::from(n.checked_ilog10().unwrap_or(0)).saturating_add(1))
}

/// The width of so many characters in a box.
fn text_width(characters: u64) -> Px {
    Px(62).times(characters).plus(Px(30))
}
