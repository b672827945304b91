use crate::px::{AXIS, BAND_GAP, HEADER, LANE_GAP, Px, ROW, STRIP_ROW};
use crate::scale::{Scale, middle};
use crate::window::Window;
use fj_story::{Moment, Story, Stretch};
use std::alloc::{AllocError, Global};

/// The most events that are drawn in bands.
const MOST_DRAWN: u64 = 20_000;

/// The lane of a worker in a band.
#[derive(Clone, Copy, Debug)]
pub struct Lane {
    pub top: Px,
    pub rows: u64,
}

/// A part of the history, drawn from the left to the right.
#[derive(Clone, Copy, Debug)]
pub struct Band {
    pub start: Moment,
    /// The first event behind it.
    pub end: Moment,
    pub top: Px,
    /// Where its lanes end.
    pub bottom: Px,
    /// The number of the first worker's lane.
    first_lane: usize,
}

impl Band {
    /// Whether the event is in it.
    pub fn has(&self, at: Moment) -> bool {
        self.start <= at && at < self.end
    }
}

/// Where everything is.
#[derive(Drop)]
pub struct Page {
    pub scale: Scale,
    pub window: Window,
    pub bands: Vec<Band>,
    lanes: Vec<Lane>,
    pub workers: usize,
    /// Whether the whole history is shown above the bands.
    pub has_strip: bool,
    pub height: Px,
}

impl Page {
    /// The layout of a picture. An error only if out of memory.
    pub fn of(alloc: Global, story: &Story, window: Option<Window>) -> Result<Page, AllocError> {
        let whole = Window::whole(story);
        let window = window.unwrap_or(whole).within(story);
        let scale = Scale::of(window.length(), middle(alloc, story, window)?);
        let is_drawn = window.length() <= MOST_DRAWN;
        let has_strip = scale.bands > 1 || window != whole || !is_drawn;
        let mut page = Page {
            scale,
            window,
            bands: Vec::new(alloc),
            lanes: Vec::new(alloc),
            workers: story.workers().len(),
            has_strip,
            height: HEADER,
        };
        if has_strip {
            page.height = HEADER
                .plus(STRIP_ROW.times(page.workers as u64))
                .plus(BAND_GAP);
        }
        if is_drawn {
            page.add_bands(story)?;
        }
        Ok(page)
    }

    /// Adds all bands.
    fn add_bands(&mut self, story: &Story) -> Result<(), AllocError> {
        let mut start = self.window.from;
        for _ in 0..self.scale.bands {
            let end = Moment(start.0.saturating_add(self.scale.per_band)).min(
                self.window.to.next(),
            );
            self.add_band(story, start, end)?;
            start = end;
        }
        Ok(())
    }

    /// Adds a band below the others.
    fn add_band(&mut self, story: &Story, start: Moment, end: Moment) -> Result<(), AllocError> {
        let top = self.height;
        let first_lane = self.add_lanes()?;
        for stretch in story.stretches().iter() {
            if stretch.begun < end && start < story.end_of(stretch) {
                self.make_room(first_lane, stretch);
            }
        }
        let bottom = self.place_lanes(first_lane, top.plus(AXIS));
        self.bands.push(Band {
            start,
            end,
            top,
            bottom,
            first_lane,
        })?;
        self.height = bottom.plus(BAND_GAP);
        Ok(())
    }

    /// Adds a lane of one row for each worker. Answers the number of the first one.
    fn add_lanes(&mut self) -> Result<usize, AllocError> {
        let first_lane = self.lanes.len();
        let lane = Lane {
            top: self.height,
            rows: 1,
        };
        for _ in 0..self.workers {
            self.lanes.push(lane)?;
        }
        Ok(first_lane)
    }

    /// The lane has a row for the stretch.
    fn make_room(&mut self, first_lane: usize, stretch: &Stretch) {
        if stretch.worker < self.workers {
            if let Some(lane) = self
                .lanes
                .get_mut(first_lane.saturating_add(stretch.worker))
            {
                lane.rows = lane.rows.max(stretch.depth.saturating_add(1));
            }
        }
    }

    /// Places the lanes from this one on, one below the other. Answers where the last one ends.
    fn place_lanes(&mut self, first_lane: usize, top: Px) -> Px {
        let mut next = top;
        for place in first_lane..self.lanes.len() {
            if let Some(lane) = self.lanes.get_mut(place) {
                lane.top = next;
                next = next.plus(ROW.times(lane.rows)).plus(LANE_GAP);
            }
        }
        next.minus(LANE_GAP)
    }

    /// The lane of a worker.
    pub fn lane(&self, band: &Band, worker: usize) -> Option<Lane> {
        if worker < self.workers {
            self.lanes
                .get(band.first_lane.saturating_add(worker))
                .copied()
        } else {
            None
        }
    }

    /// Where an event is in a band.
    pub fn x(&self, band: &Band, at: Moment) -> Px {
        self.scale.x(band.start, at)
    }

    /// Whether a stretch reaches into the window.
    pub fn shows(&self, story: &Story, stretch: &Stretch) -> bool {
        stretch.begun <= self.window.to && self.window.from < story.end_of(stretch)
    }
}
