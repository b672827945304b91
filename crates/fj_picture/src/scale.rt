use crate::parts::{pieces, split};
use crate::px::{LEFT, Px, ROOM};
use crate::window::Window;
use fj_story::{Moment, Story, share};
use std::alloc::{AllocError, Global};

/// The most bands of a picture, however many events it has.
const MOST_BANDS: u64 = 24;

/// The most that an event is wide.
const WIDEST: Px = Px(400);

/// How the events lie on the page.
#[derive(Clone, Copy, Debug)]
pub struct Scale {
    /// The width of a band.
    width: Px,
    /// How many events a band has.
    pub per_band: u64,
    pub bands: u64,
}

impl Scale {
    /// The scale at which so many events have room, and a stretch of middle length has room for its number.
    pub fn of(events: u64, middle: u64) -> Scale {
        let ten = split(3_000, middle).clamp(1, 1_600);
        let wanted = split(ROOM.times(10).0, ten);
        let per_band = wanted.max(pieces(events, MOST_BANDS)).max(1);
        let bands = pieces(events, per_band).max(1);
        // bands of one length: a single one takes the whole width
        let per_band = pieces(events, bands).max(1);
        Scale {
            width: WIDEST.times(per_band).min(ROOM),
            per_band,
            bands,
        }
    }

    /// Where an event is in a band that begins at this one.
    pub fn x(&self, start: Moment, at: Moment) -> Px {
        LEFT.plus(self.width_of(at.since(start)))
    }

    /// How wide so many events are.
    pub fn width_of(&self, events: u64) -> Px {
        Px(share(events, self.width.0, self.per_band))
    }
}

/// The middle length of the stretches that begin in a window: 1 if there are none.
pub fn middle(alloc: Global, story: &Story, window: Window) -> Result<u64, AllocError> {
    let mut lengths = Vec::new(alloc);
    for stretch in story.stretches().iter() {
        if window.from <= stretch.begun && stretch.begun <= window.to {
            lengths.push(story.end_of(stretch).since(stretch.begun))?;
        }
    }
    lengths.sort_unstable();
    let middle = lengths.len() / 2;
    Ok(lengths.get(middle).copied().unwrap_or(1))
}
