//! What the table says of a task.
ghost use Rattle.std.specs.Prelude.{◌≡◌};
ghost use Rattle.fj_rules.proofs.Events.Spending.{closed};
ghost use Rattle.fj_story.specs.Changes.{FitsAdd, accepted_at, cancelled, changed, first_place, first_row, is_row_spent, place_behind, stopped};

use fj_rules::{Event, Kind, Owner, Place, Status, WorkerId};

/// When what happened to a task: the numbers, from 1, of these events. None where it has not happened.
#[derive(Clone, Copy, Debug)]
pub struct TaskMoments {
    pub accepted: Option<u64>,
    /// When a worker took it from its queue, to run it or to skip it.
    pub taken: Option<u64>,
    /// When its body ended.
    pub ended: Option<u64>,
    pub fired: Option<u64>,
    /// When a climb passed it.
    pub passed: Option<u64>,
    /// When its completion action ended.
    pub hooked: Option<u64>,
    pub released: Option<u64>,
}

impl TaskMoments {
    /// Of a task that is accepted now.
    fn accepted_at(now: u64) -> TaskMoments
        ensures { result ≡ accepted_at (Some now) }
    {
        TaskMoments {
            accepted: Some(now),
            taken: None,
            ended: None,
            fired: None,
            passed: None,
            hooked: None,
            released: None,
        }
    }
}

/// What a history says of a task.
#[derive(Clone, Copy, Debug)]
pub struct TaskRow {
    pub kind: Kind,
    /// Into whose queue it was accepted. None for a trigger.
    pub queue: Option<Owner>,
    /// Who took it from its queue.
    pub worker: Option<WorkerId>,
    /// Its pending count.
    pub pending: u64,
    pub place: Place,
    pub status: Status,
    pub at: TaskMoments,
}

impl TaskRow {
    /// A task that is accepted now, into this queue if it is no trigger.
    pub fn accepted(kind: &Kind, queue: Option<Owner>, now: u64) -> TaskRow
        ensures { result ≡ first_row kind.now queue now }
    {
        let place = first_place(&queue);
        TaskRow {
            kind: *kind,
            queue,
            worker: None,
            pending: u64::from(kind.count()),
            place,
            status: Status::Undone,
            at: TaskMoments::accepted_at(now),
        }
    }

    /// Whether it was fired, passed or done.
    fn is_spent(&self) -> bool
        ensures { result ≡ is_row_spent self.now }
    {
        self.at.fired.is_some() || self.at.passed.is_some() || !self.status.is_undone()
    }

    /// Where it is once its body has ended.
    fn place_behind(&self) -> Place
        ensures { result ≡ place_behind self.now }
    {
        if self.kind.is_completer() && !self.is_spent() {
            Place::Open
        } else {
            Place::Gone
        }
    }

    /// Changes it by this event, which says something of its task. Precondition: what it adds to the pending count fits.
    pub(crate) fn change(&mut self, event: &Event, now: u64)
        requires { FitsAdd self.old event.now }
        ensures { self.new ≡ changed self.old event.now now }
    {
        match event {
            Event::Out(_, w) => {
                self.worker = Some(*w);
                self.place = Place::Held(*w);
                self.at.taken = Some(now);
            }
            Event::Skip(_, w) => {
                self.worker = Some(*w);
                self.place = Place::Gone;
                self.at.taken = Some(now);
            }
            Event::End(_, _) => {
                self.place = self.place_behind();
                self.at.ended = Some(now);
            }
            Event::Add(_, n) => self.pending += u64::from(*n),
            Event::Dec(_) => self.pending = self.pending.saturating_sub(1),
            Event::Fire(_, _) => {
                self.place = closed(&self.place);
                self.at.fired = Some(now);
            }
            Event::Pass(_) => {
                self.place = closed(&self.place);
                self.at.passed = Some(now);
            }
            Event::Hooked(_) => self.at.hooked = Some(now),
            Event::Settle(_, status) => {
                self.place = closed(&self.place);
                self.status = *status;
            }
            Event::Rel(_) => self.at.released = Some(now),
            Event::Acc(_, _, _) | Event::Make(_, _) | Event::Close | Event::Stop => {}
        }
    }

    /// The row after a stop.
    pub fn stopped(&self) -> TaskRow
        ensures { result ≡ stopped self.now }
    {
        TaskRow {
            place: closed(&self.place),
            status: cancelled(self.status),
            ..*self
        }
    }
}

/// Where a task is that is accepted now: in its queue. A trigger is open.
fn first_place(queue: &Option<Owner>) -> Place
    ensures { result ≡ first_place queue.now }
{
    match queue {
        Some(owner) => Place::Queued(*owner),
        None => Place::Open,
    }
}

/// Where a task is that is spent now: it is open no more.
fn closed(place: &Place) -> Place
    ensures { result ≡ closed place.now }
{
    match place {
        Place::Open => Place::Gone,
        Place::Queued(owner) => Place::Queued(*owner),
        Place::Held(w) => Place::Held(*w),
        Place::Gone => Place::Gone,
    }
}

/// The status after a stop.
fn cancelled(status: Status) -> Status
    ensures { result ≡ cancelled status }
{
    if status.is_undone() {
        Status::Cancelled
    } else {
        status
    }
}
