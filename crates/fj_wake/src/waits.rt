ghost use Rattle.std.specs.Prelude.{◌≡◌, ℕ, ◌≤◌, Bool, true, IfOk};
ghost use Rattle.fj_sleep.specs.declared.places.TheConstants.{MAX_PLACES};
ghost use Rattle.fj_wake.specs.Waiting.{NobodyWaits, WaitForNothingNew, WaitOnlyFor};

mod looking;

use fj_calls::{ToWake, place_of};
use fj_gate::Ticket;
use fj_rules::{Serial, WorkerId};
use fj_sleep::{MAX_PLACES, Sleepers, Wanted};
use std::alloc::{AllocError, Global};

/// Who sleeps, and for what: the account that the lock of a pool guards. Java has no counterpart.
#[derive(Drop)]
pub struct Waits {
    /// The workers: those that have nothing to do, and those that joined a task.
    pub(crate) workers: Sleepers<Serial>,
    /// Callers that await an outcome, each at a seat.
    pub(crate) seats: Sleepers<Ticket>,
    /// What callers without a seat await.
    pub(crate) crowd: Wanted<Ticket>,
    /// At this seat and beyond it nobody has sat yet.
    pub(crate) seats_used: usize,
    /// Whether the callers without a seat are to be woken.
    pub(crate) crowd_due: bool,
}

impl Waits {
    /// Nobody sleeps. An error where memory is refused, and no other. Precondition: `MAX_PLACES` workers at most.
    pub fn new(alloc: Global, workers: usize) -> Result<Waits, AllocError>
        requires { workers ≤ MAX_PLACES }
        ensures { IfOk result NobodyWaits }
    {
        Ok(Waits {
            workers: Sleepers::new(alloc, workers)?,
            seats: Sleepers::new(alloc, MAX_PLACES)?,
            crowd: Wanted::Nothing,
            seats_used: 0,
            crowd_due: false,
        })
    }

    /// Puts into `due` who is marked, if anybody is. From then on nobody is.
    #[inline(always)]
    pub(crate) fn take_due(&mut self, due: &mut ToWake)
        ensures { WaitForNothingNew self.old self.new }
    {
        if self.workers.may_be_due() || self.seats.may_be_due() || self.crowd_due {
            self.take_all_due(due);
        }
    }

    /// The same, where somebody may be due.
    #[inline(never)]
    fn take_all_due(&mut self, due: &mut ToWake)
        ensures { WaitForNothingNew self.old self.new }
    {
        due.workers = self.workers.take_due();
        due.seats = self.seats.take_due();
        due.crowd = self.crowd_due;
        self.crowd_due = false;
    }

    /// The worker is back from its sleep.
    #[inline(always)]
    pub(crate) fn come_back(&mut self, worker: WorkerId)
        ensures { WaitForNothingNew self.old self.new }
    {
        self.workers.come_back(place_of(worker));
    }

    /// The worker has something to do after a sleep. If it was the lookout, another one that rests is from now on.
    #[inline(always)]
    pub(crate) fn begin(&mut self, worker: WorkerId)
        ensures { WaitForNothingNew self.old self.new }
    {
        self.workers.begin(place_of(worker));
    }

    /// The worker found nothing to do, and rests.
    #[inline(always)]
    pub(crate) fn rest(&mut self, worker: WorkerId)
        ensures { WaitForNothingNew self.old self.new }
    {
        self.workers.rest(place_of(worker));
    }

    /// The worker waits for a task that it joined.
    pub(crate) fn wait_for(&mut self, worker: WorkerId, t: Serial)
        ensures { (joinable awaited : ℕ → Bool) → WaitOnlyFor joinable awaited self.old → joinable t ≡ true → WaitOnlyFor joinable awaited self.new }
    {
        self.workers.wait(place_of(worker), t);
    }

    /// Whether this worker, which has nothing to do, looks for work now and then.
    pub(crate) fn is_lookout(&self, worker: WorkerId) -> bool {
        self.workers.is_lookout(place_of(worker))
    }

    /// A caller awaits this outcome: at which seat, or at none where all are taken.
    pub(crate) fn sit(&mut self, ticket: Ticket) -> Option<usize>
        ensures { (joinable awaited : ℕ → Bool) → WaitOnlyFor joinable awaited self.old → awaited ticket ≡ true → WaitOnlyFor joinable awaited self.new }
    {
        let seat = self.seats.free_place();
        match seat {
            Some(place) => {
                self.seats.wait(place, ticket);
                self.seats_used = self.seats_used.max(place.saturating_add(1));
            }
            None => self.crowd = self.crowd.and(ticket),
        }
        seat
    }

    /// A caller awaits the first of several outcomes, without a seat.
    pub(crate) fn sit_for_any(&mut self)
        ensures { WaitForNothingNew self.old self.new }
    {
        self.crowd = Wanted::Several;
    }

    /// The caller that sat there is back.
    pub(crate) fn stand_up(&mut self, seat: Option<usize>)
        ensures { WaitForNothingNew self.old self.new }
    {
        if let Some(place) = seat {
            self.seats.come_back(place);
        }
    }

    /// Marks one worker, since a task was queued: one that rests, if any does.
    #[inline(always)]
    pub(crate) fn wake_one(&mut self)
        ensures { WaitForNothingNew self.old self.new }
    {
        self.workers.wake_one();
    }

    /// Marks all workers, since several tasks were queued.
    pub(crate) fn wake_workers(&mut self)
        ensures { WaitForNothingNew self.old self.new }
    {
        self.workers.wake_all();
    }

    /// Marks all workers that wait for a task.
    fn wake_joining(&mut self)
        ensures { WaitForNothingNew self.old self.new }
    {
        self.workers.wake_waiting();
    }

    /// The same, if that is wanted.
    pub(crate) fn wake_joining_if(&mut self, wanted: bool)
        ensures { WaitForNothingNew self.old self.new }
    {
        if wanted {
            self.wake_joining();
        }
    }

    /// Marks everybody.
    pub(crate) fn wake_all(&mut self)
        ensures { NobodyWaits self.new }
    {
        self.workers.wake_all();
        self.seats.wake_all();
        self.wake_crowd();
    }

    /// Marks all callers without a seat.
    fn wake_crowd(&mut self)
        ensures { self.new ≡ record self.old { crowd = Wanted.Nothing; crowd_due = true } }
    {
        self.crowd = Wanted::Nothing;
        self.crowd_due = true;
    }
}
