//! The walk back from the end.
use crate::path::link::{Link, LinkKind, Then};
use fj_story::{Moment, Story, Stretch, TaskStory, Turn, Work};
use std::alloc::{AllocError, Global};

/// A place of the walk: what a worker did from its last turn to this moment, and to what that leads.
#[derive(Clone, Copy)]
struct Place {
    turn: Turn,
    until: Moment,
    then: Then,
}

/// The links, the last one first.
pub fn links(alloc: Global, story: &Story) -> Result<Vec<Link>, AllocError> {
    let mut links = Vec::new(alloc);
    let mut place = last_end(story);
    // the moments fall, so there are at most so many links
    for _ in 0..story.now().0 {
        let Some(here) = place else {
            break;
        };
        place = step(story, here, &mut links)?;
    }
    Ok(links)
}

/// Where the stretch that ended last ended.
fn last_end(story: &Story) -> Option<Place> {
    let mut last = None;
    let mut latest = Moment::START;
    for stretch in story.stretches().iter() {
        if let Some(ended) = stretch.ended {
            if latest < ended.at {
                latest = ended.at;
                last = end_place(stretch);
            }
        }
    }
    last
}

/// The end of a stretch.
fn end_place(stretch: &Stretch) -> Option<Place> {
    let ended = stretch.ended?;
    Some(Place {
        turn: ended.after?,
        until: ended.at,
        then: Then::Ends,
    })
}

/// Adds the link that leads here, and answers what that waited for.
fn step(story: &Story, here: Place, links: &mut Vec<Link>) -> Result<Option<Place>, AllocError> {
    let Some(stretch) = story.stretch(here.turn.stretch) else {
        return Ok(None);
    };
    links.push(Link {
        from: here.turn.at,
        to: here.until,
        kind: kind_of(story, here.turn, stretch, here.then),
        then: here.then,
    })?;
    if here.turn.is_end {
        return Ok(end_place(stretch));
    }
    match stretch.work {
        Work::Hook(c) => Ok(before(stretch, Then::Fires(c))),
        Work::Body(t) => beginning(story, stretch, t, links),
    }
}

/// What a worker did behind a turn of this stretch.
fn kind_of(story: &Story, turn: Turn, stretch: &Stretch, then: Then) -> LinkKind {
    if let Then::Fires(c) = then {
        return LinkKind::Climbs(c);
    }
    if !turn.is_end {
        return LinkKind::Runs(stretch.worker, stretch.work);
    }
    match below(story, stretch) {
        Some(body) => LinkKind::Runs(stretch.worker, body.work),
        None => LinkKind::Takes(stretch.worker),
    }
}

/// The body below a stretch on the worker's stack.
fn below<'a>(story: &'a Story, stretch: &Stretch) -> Option<&'a Stretch> {
    story.stretch(stretch.outer?)
}

/// What the worker did before it began the stretch.
fn before(stretch: &Stretch, then: Then) -> Option<Place> {
    Some(Place {
        turn: stretch.before?,
        until: stretch.begun,
        then,
    })
}

/// What the beginning of a body waited for: the worker, if that did something later than the task was accepted, and otherwise the task.
fn beginning(
    story: &Story,
    stretch: &Stretch,
    t: u64,
    links: &mut Vec<Link>,
) -> Result<Option<Place>, AllocError> {
    let Some(task) = story.task(t) else {
        return Ok(None);
    };
    if let Some(turn) = stretch.before {
        if task.accepted < turn.at {
            return Ok(before(stretch, Then::Begins(t)));
        }
    }
    links.push(Link {
        from: task.accepted,
        to: stretch.begun,
        kind: LinkKind::Waits(t),
        then: Then::Begins(t),
    })?;
    Ok(fork(task, t))
}

/// The body that forked the task, until then.
fn fork(task: &TaskStory, t: u64) -> Option<Place> {
    Some(Place {
        turn: task.forked?.after?,
        until: task.accepted,
        then: Then::Forks(t),
    })
}
