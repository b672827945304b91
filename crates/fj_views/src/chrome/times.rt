//! The time of each event.
use fj_story::{Milestone, Moment, Story, Stretch, Work};
use serde::{Described, Serialize, Serializer};
use std::alloc::{AllocError, Global};
use std::num::nearest_u64_to_f64;

/// A time, or how long something took, in microseconds.
#[derive(Clone, Copy)]
pub enum Micros {
    /// So many.
    Whole(u64),
    /// So many thousandths of one.
    Nanos(u64),
}

impl Described for Micros {}

impl Serialize for Micros {
    fn serialize<S: Serializer>(&self, out: &mut S) -> Result<(), S::Error> {
        match self {
            Micros::Whole(n) => out.u64(*n),
            Micros::Nanos(n) => out.f64(nearest_u64_to_f64(*n) / 1000.0),
        }
    }
}

/// The times of the events of a history: those of its notes, or else an event takes a microsecond.
#[derive(Drop)]
pub struct Times {
    /// By event, in nanoseconds, never falling. None without real times.
    nanos: Option<Vec<u64>>,
}

impl Times {
    /// The times of this history. An error only if out of memory.
    pub fn of(alloc: Global, story: &Story) -> Result<Times, AllocError> {
        if !has_times(story) {
            return Ok(Times { nanos: None });
        }
        // The last one is of what has not ended.
        let mut nanos = Vec::new(alloc);
        for _ in 0..story.now().next().0.saturating_add(1) {
            nanos.push(0)?;
        }
        for stretch in story.stretches().iter() {
            let (begun, ended) = noted(story, stretch);
            note(&mut nanos, stretch.begun, begun);
            if let Some(end) = stretch.ended {
                note(&mut nanos, end.at, ended);
            }
        }
        rise(&mut nanos);
        Ok(Times { nanos: Some(nanos) })
    }

    /// When the event was.
    pub fn at(&self, moment: Moment) -> Micros {
        match &self.nanos {
            Some(nanos) => Micros::Nanos(at(nanos.as_slice(), moment)),
            None => Micros::Whole(moment.0),
        }
    }

    /// From one event to a later one.
    pub fn between(&self, from: Moment, to: Moment) -> Micros {
        match &self.nanos {
            Some(nanos) => {
                let nanos = nanos.as_slice();
                Micros::Nanos(at(nanos, to).saturating_sub(at(nanos, from)))
            }
            None => Micros::Whole(to.since(from)),
        }
    }
}

/// Whether the beginning of some body or action has a time.
fn has_times(story: &Story) -> bool {
    for stretch in story.stretches().iter() {
        if noted(story, stretch).0.is_some() {
            return true;
        }
    }
    false
}

/// When a stretch began and ended, as far as that is noted.
fn noted(story: &Story, stretch: &Stretch) -> (Option<u64>, Option<u64>) {
    let t = stretch.work.task();
    let (begin, end) = match stretch.work {
        Work::Body(_) => (Milestone::Begin, Milestone::End),
        Work::Hook(_) => (Milestone::Fire, Milestone::Hooked),
    };
    (story.time_of(t, begin), story.time_of(t, end))
}

/// Notes the time of an event.
fn note(nanos: &mut Vec<u64>, moment: Moment, time: Option<u64>) {
    if let Some(time) = time
        && let Some(place) = nanos.get_mut(moment.0 as usize)
    {
        *place = time;
    }
}

/// An event without a time, or with one below an earlier event's, has the greatest of those before.
fn rise(nanos: &mut Vec<u64>) {
    let mut latest = 0u64;
    for time in nanos.iter_mut() {
        latest = latest.max(*time);
        *time = latest;
    }
}

/// The time of an event, 0 beyond the last.
fn at(nanos: &[u64], moment: Moment) -> u64 {
    nanos.get(moment.0 as usize).copied().unwrap_or(0)
}
