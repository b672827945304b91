ghost use Rattle.std.specs.Prelude.{◌≡◌, ◌≤◌, ◌&&◌, [], None, true, All, IfOk, vec_len};
ghost use Rattle.fj_lane.specs.declared.new_lane.TheConstants.{MAX_CAPACITY};
ghost use Rattle.fj_rules.specs.Epochs.{IsPast};
ghost use Rattle.fj_rules.specs.Statuses.{status, is_undone};
ghost use Rattle.fj_rules.specs.Tasks.{is_kept};
ghost use Rattle.fj_body.specs.Choosing.{Polls};
ghost use Rattle.fj_body.specs.Fitting.{Fits};
ghost use Rattle.fj_body.specs.Stores.{StaysInside};
ghost use Rattle.fj_calls.specs.Booked.{HasTask, booked_under};
ghost use Rattle.fj_calls.specs.Cancels.{CancelsTicket};
ghost use Rattle.fj_calls.specs.Cores.{ChangesStore, CollectsTicket, IsNew, first_hands, is_awaited};

mod act;
mod close;
mod intake;
mod remains;
mod seal;

use crate::first_hands::new_hands;
use fj_bodies::Store;
use fj_body::{Body, Heard, Outcome, Told};
use fj_calls::{Archive, Bookings, Cutoff};
use fj_gate::Ticket;
use fj_lane::{Drain, Misses};
use fj_machine::Machine;
use fj_rules::{Limits, Mode, OutOfMemory, Refusal, Serial, both};
use fj_slots::Hand;
use std::alloc::Global;
use std::marker::Model;

/// The state of a pool that its lock guards: the store, the drains of the lanes, the bookings, the closing number, and the sealed parts of
/// the history. Each call is one action of a worker, of a caller from outside, or of the lanes. Java has no counterpart: its pool has no
/// lock.
pub struct Core<B: Body> {
    store: Store<B>,
    drains: Vec<Drain<B>>,
    bookings: Bookings,
    closing: Cutoff,
    archive: Archive,
    missed_seals: Misses,
}

// By hand: a derived one is proved in each crate that drops such a value.
impl<B: Body> Drop for Core<B> {
    fn drop(self) {
        let Core {
            store: _,
            drains: _,
            bookings: _,
            closing: _,
            archive: _,
            missed_seals: _,
        } = self;
    }
}

impl<B: Body> Model for Core<B> {
    ghost use Rattle.fj_calls.specs.Cores.{CoreState, HoldsCore};

    ghost Value = { CoreState B B.Key B.Out };

    ghost view = { λ c. record { store = c.store; lanes = c.drains.items; bookings = c.bookings.bookings; closing = c.closing; handed = c.archive.handed; parts = c.archive.kept; missed_seals = c.missed_seals.number } };

    ghost invariant = { λ c. HoldsCore c.store c.drains.items c.bookings c.closing c.archive };
}

impl<B: Body> Core<B> {
    /// A core in which nothing has happened, and an empty hand for each worker. Allocates all memory except that of seals. `OutOfMemory` if
    /// an allocation fails.
    ///
    /// Preconditions: one drain for each submitter, each of a lane of this capacity, at most `MAX_CAPACITY`, from which nothing was taken.
    pub fn new(
        alloc: Global,
        mode: Mode,
        limits: Limits,
        lane_capacity: u32,
        drains: Vec<Drain<B>>,
        start: u32,
    ) -> Result<(Core<B>, Vec<Hand<B>>), OutOfMemory>
        requires lanes { vec_len drains ≡ limits.submitters }
        requires capacity { lane_capacity ≤ MAX_CAPACITY }
        requires capacities { All (λ d. d.capacity ≡ lane_capacity) drains.items }
        requires untouched { All (λ d. d.drained ≡ []) drains.items }
        ensures core { IfOk result (λ r. IsNew mode limits drains.items r.0) }
        ensures hands { IfOk result (λ r. r.1.items ≡ first_hands limits.workers start) }
    {
        let hands = both(
            Bookings::new(alloc, limits.submitters() * lane_capacity),
            new_hands(alloc, limits.workers(), start),
        );
        let ((bookings, hands), store) = both(hands, Store::new(alloc, mode, limits))?;
        let core = Core {
            store,
            drains,
            bookings,
            closing: Cutoff::new(),
            archive: Archive::new(alloc),
            missed_seals: Misses::zero(),
        };
        Ok((core, hands))
    }

    /// The machine, with its history.
    pub fn machine(&self) -> &Machine
        ensures is { result.now ≡ self.now.store.past }
        ensures run { IsPast self.now.store.past }
    {
        self.store.machine()
    }

    /// An idle worker asks for its next task. `Stuck` if the core is stuck, or gets stuck since the history is full.
    /// Preconditions: the hand fits, and has no body and no hook.
    #[inline(always)]
    pub fn poll(&mut self, hand: &mut Hand<B>) -> Told<B>
        requires fits { Fits self.old.store.past hand.old }
        requires idle { (hand.old.stack ≡ []) × (hand.old.hook ≡ None) }
        ensures polls { Polls self.old.store hand.old result self.new.store hand.new }
        ensures others { ChangesStore self.old self.new }
        ensures stays { StaysInside self.old.store self.new.store }
        ensures fits { Fits self.new.store.past hand.new }
    {
        self.store.poll(hand)
    }

    /// The outcome of the task that was taken in first under a ticket, once it is done. It is delivered once; then the task is released as
    /// soon as it can be.
    ///
    /// `LogFull` if the core is stuck. `Unknown` if the outcome was delivered before, if a join, a take or a release has had the result, or if
    /// the closing number is reached and nothing was taken in under this ticket. None while nothing was taken in under it, and while its
    /// task is undone.
    pub fn collect(&mut self, ticket: Ticket) -> Option<Result<Outcome<B>, Refusal>>
        ensures collects { CollectsTicket self.old ticket result self.new }
        ensures stays { StaysInside self.old.store self.new.store }
    {
        if self.store.is_stuck() {
            return Some(Err(Refusal::LogFull));
        }
        match self.bookings.find(ticket) {
            Some(t) => self.store.collect(t),
            None => {
                if self.closing.is_due(self.bookings.len()) {
                    Some(Err(Refusal::Unknown))
                } else {
                    None
                }
            }
        }
    }

    /// Cancels the task that was taken in first under a ticket: `ForkJoinTask.cancel`. True if it is cancelled now, also if it was before;
    /// false if it ended otherwise.
    ///
    /// `LogFull` if the core is stuck, or the history has no room for the event. `Unknown` if nothing was taken in under it, or its task was
    /// released.
    pub fn cancel(&mut self, ticket: Ticket) -> Result<bool, Refusal>
        ensures cancels { CancelsTicket self.old ticket result self.new }
        ensures stays { StaysInside self.old.store self.new.store }
    {
        if self.store.is_stuck() {
            return Err(Refusal::LogFull);
        }
        let Some(t) = self.bookings.find(ticket) else {
            return Err(Refusal::Unknown);
        };
        match self.store.cancel(t) {
            Told::Hear(Heard::Yes) => Ok(true),
            Told::Hear(Heard::No) => Ok(false),
            Told::Hear(Heard::Refused(refusal)) => Err(refusal),
            _ => unreachable!(),
        }
    }

    /// Whether this task was taken in from a lane.
    pub fn is_booked(&self, t: Serial) -> bool
        ensures { result ≡ true → HasTask self.now.bookings t }
    {
        self.bookings.has_task(t)
    }

    /// The task that was taken in first under a ticket. None if none was.
    pub fn booked(&self, ticket: Ticket) -> Option<Serial>
        ensures { result ≡ booked_under self.now.bookings ticket }
    {
        self.bookings.find(ticket)
    }

    /// Whether the core is stuck: the history had no room for a step that must be made.
    pub fn is_stuck(&self) -> bool
        ensures { result ≡ self.now.store.stuck }
    {
        self.store.is_stuck()
    }

    /// Whether the outcome under a ticket is still to come: the core is not stuck, and the task that was taken in first under it is undone,
    /// or nothing was taken in under it and the closing number is not reached.
    pub fn is_awaited(&self, ticket: Ticket) -> bool
        ensures { result ≡ is_awaited self.now ticket }
    {
        if self.store.is_stuck() {
            return false;
        }
        match self.bookings.find(ticket) {
            Some(t) => self.store.is_undone(t),
            None => !self.closing.is_due(self.bookings.len()),
        }
    }

    /// Whether a task is kept and undone: not `ForkJoinTask.isDone`. It also answers if the core is stuck.
    pub fn is_undone(&self, t: Serial) -> bool
        ensures { result ≡ is_kept self.now.store.past.events t && is_undone (status self.now.store.past.events t) }
    {
        self.store.is_undone(t)
    }
}
