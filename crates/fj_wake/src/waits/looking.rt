//! Who is to be woken by what has happened at a core.
ghost use Rattle.std.specs.Prelude.{◌≡◌, ℕ, Bool, true, false};
ghost use Rattle.fj_calls.specs.Cores.{is_awaited};
ghost use Rattle.fj_wake.specs.News.{has_ended};
ghost use Rattle.fj_calls.specs.Joins.{is_joinable};
ghost use Rattle.fj_wake.specs.Waiting.{AllWaitFor, LooksAt, NoLostWakeUp, StillToCome, WaitBelow, WaitForNothingNew, WaitOnlyFor};

use crate::news::{ends_any, queues_any, since};
use crate::waits::Waits;
use fj_body::Body;
use fj_core::Core;
use fj_gate::Ticket;
use fj_rules::{Event, Serial};
use fj_sleep::{Sleepers, Wanted};

impl Waits {
    /// Reads the events of the present history from this place on, and marks who is to be woken: one worker if a task was queued, and each
    /// thread whose wait has ended; all if the core is stuck. Precondition: nobody waits at a seat that was never used.
    #[inline(always)]
    pub(crate) fn tell<B: Body>(&mut self, core: &Core<B>, place: usize)
        requires { WaitBelow self.old.seats_used self.old.seats.places }
        ensures { (joinable awaited : ℕ → Bool) → WaitOnlyFor joinable awaited self.old
            → (core.now.store.stuck ≡ false → has_ended place core.now ≡ false → StillToCome joinable awaited core.now) → NoLostWakeUp self.new core.now }
    {
        let news = since(core.machine().history(), place);
        if queues_any(news) {
            self.wake_one();
        }
        self.tell_ended(core, place);
    }

    /// The same, except that a queued task wakes nobody.
    #[inline(always)]
    pub(crate) fn tell_ended<B: Body>(&mut self, core: &Core<B>, place: usize)
        requires { WaitBelow self.old.seats_used self.old.seats.places }
        ensures { (joinable awaited : ℕ → Bool) → WaitOnlyFor joinable awaited self.old
            → (core.now.store.stuck ≡ false → has_ended place core.now ≡ false → StillToCome joinable awaited core.now) → NoLostWakeUp self.new core.now }
    {
        if core.is_stuck() {
            self.wake_all();
            return;
        }
        let news = since(core.machine().history(), place);
        if ends_any(news) {
            self.look_up(core);
            self.tell_several(core, news);
        }
    }

    /// Marks each thread whose wait an intake has ended: one that took a parcel may have made a stop, and so ended any task. Marks all if the
    /// core is stuck. Precondition: nobody waits at a seat that was never used.
    pub(crate) fn tell_intake<B: Body>(&mut self, core: &Core<B>, took: bool)
        requires { WaitBelow self.old.seats_used self.old.seats.places }
        ensures { (joinable awaited : ℕ → Bool) → WaitOnlyFor joinable awaited self.old
            → (core.now.store.stuck ≡ false → took ≡ false → StillToCome joinable awaited core.now) → NoLostWakeUp self.new core.now }
    {
        if core.is_stuck() {
            self.wake_all();
            return;
        }
        if took {
            self.look_up(core);
            self.wake_several(true);
        }
    }

    /// Marks each thread whose wait has ended, except callers without a seat that may await any outcome. Preconditions: the core is not stuck,
    /// and nobody waits at a seat that was never used.
    fn look_up<B: Body>(&mut self, core: &Core<B>)
        requires free { core.now.store.stuck ≡ false }
        requires used { WaitBelow self.old.seats_used self.old.seats.places }
        ensures { NoLostWakeUp self.new core.now }
    {
        self.look_at_workers(core);
        self.look_at_seats(core);
        self.look_at_crowd(core);
    }

    /// Marks each worker that waits for a task which has ended.
    fn look_at_workers<B: Body>(&mut self, core: &Core<B>)
        requires { core.now.store.stuck ≡ false }
        ensures workers { AllWaitFor (is_joinable core.now) self.new.workers.places }
        ensures others { self.new ≡ record self.old { workers = self.new.workers } }
    {
        if self.workers.waits() {
            wake_joining(core, &mut self.workers);
        }
    }

    /// Marks each caller at a seat whose outcome can be told.
    fn look_at_seats<B: Body>(&mut self, core: &Core<B>)
        requires { WaitBelow self.old.seats_used self.old.seats.places }
        ensures seats { AllWaitFor (is_awaited core.now) self.new.seats.places }
        ensures used { WaitBelow self.old.seats_used self.new.seats.places }
        ensures others { self.new ≡ record self.old { seats = self.new.seats } }
    {
        if self.seats.waits() {
            wake_awaiting(core, &mut self.seats, self.seats_used);
        }
    }

    /// Marks the callers without a seat, if they all await one outcome and that can be told.
    fn look_at_crowd<B: Body>(&mut self, core: &Core<B>)
        ensures crowd { (k : ℕ) → self.new.crowd ≡ Wanted.One k → is_awaited core.now k ≡ true }
        ensures others { self.new ≡ record self.old { crowd = self.new.crowd; crowd_due = self.new.crowd_due } }
    {
        if let Wanted::One(ticket) = self.crowd {
            if !core.is_awaited(ticket) {
                self.wake_crowd();
            }
        }
    }

    /// Marks the callers without a seat that may await any outcome, if a task ended that was taken in from a lane.
    fn tell_several<B: Body>(&mut self, core: &Core<B>, news: &[Event])
        ensures { WaitForNothingNew self.old self.new }
    {
        if matches!(self.crowd, Wanted::Several) {
            self.wake_several(news.iter().any(|event| is_outcome(core, event)));
        }
    }

    /// Marks them, if that is wanted.
    fn wake_several(&mut self, wanted: bool)
        ensures { WaitForNothingNew self.old self.new }
    {
        if wanted && matches!(self.crowd, Wanted::Several) {
            self.wake_crowd();
        }
    }
}

/// Whether an outcome may be told by this event that could not be before.
fn is_outcome<B: Body>(core: &Core<B>, event: &Event) -> bool {
    match event {
        Event::Settle(t, _) | Event::Rel(t) => core.is_booked(*t),
        Event::Stop => true,
        _ => false,
    }
}

/// Marks each worker that waits for a task which is done, or released. Precondition: the core is not stuck.
fn wake_joining<B: Body>(core: &Core<B>, workers: &mut Sleepers<Serial>)
    requires { core.now.store.stuck ≡ false }
    ensures { AllWaitFor (is_joinable core.now) workers.new.places }
{
    for place in 0..workers.len() {
        look_at_worker(core, workers, place);
    }
}

/// The same at one place.
fn look_at_worker<B: Body>(core: &Core<B>, workers: &mut Sleepers<Serial>, place: usize)
    requires { core.now.store.stuck ≡ false }
    ensures { LooksAt (is_joinable core.now) workers.old.places place workers.new.places }
{
    if let Some(t) = workers.waited_for(place) {
        if !core.is_undone(t) {
            workers.wake(place);
        }
    }
}

/// Marks each caller at one of the first `used` seats whose outcome can be told. Precondition: nobody waits at another seat.
fn wake_awaiting<B: Body>(core: &Core<B>, seats: &mut Sleepers<Ticket>, used: usize)
    requires { WaitBelow used seats.old.places }
    ensures seats { AllWaitFor (is_awaited core.now) seats.new.places }
    ensures used { WaitBelow used seats.new.places }
{
    for seat in 0..used {
        look_at_seat(core, seats, seat);
    }
}

/// The same at one seat.
fn look_at_seat<B: Body>(core: &Core<B>, seats: &mut Sleepers<Ticket>, seat: usize)
    ensures { LooksAt (is_awaited core.now) seats.old.places seat seats.new.places }
{
    if let Some(ticket) = seats.waited_for(seat) {
        if !core.is_awaited(ticket) {
            seats.wake(seat);
        }
    }
}
