//! What the lock of a pool guards.
ghost use Rattle.std.specs.Prelude.{◌≡◌, ◌++◌, [], true, IfNone, IfSome};
ghost use mathlib.Core.List.{IsPrefix};
ghost use Rattle.fj_calls.specs.Closes.{ShutsAt, closed_at, is_finished, stopped_at};
ghost use Rattle.fj_calls.specs.Cores.{CollectsTicket, is_awaited};
ghost use Rattle.fj_body.specs.Fitting.{Fits};
ghost use Rattle.fj_guarded.specs.Asked.{CancelsBehind, CollectsAny};
ghost use Rattle.fj_guarded.specs.Continuing.{EndsIn, EndsWith, IsNow};
ghost use Rattle.fj_parts.specs.Glances.{IsGlance};
ghost use Rattle.fj_parts.specs.Holdings.{AreKept};
ghost use Rattle.fj_guarded.specs.Looking.{IsQuietBehind};
ghost use Rattle.fj_guarded.specs.Turning.{IsSeenLeaving, LeavesWell, MayAsk, NextRight};
ghost use Rattle.fj_guarded.specs.Working.{Resumes, Serves};

use crate::glance::Glance;
use crate::hand::Hand;
use crate::history::History;
use crate::holding::Holding;
use crate::still::Still;
use fj_agreement::End;
use fj_body::{Ask, Body, Outcome};
use fj_calls::{
    CoreClosing, CoreLanes, CoreOutside, CoreParts, CoreQueries, CoreSeats, CoreSleep, CoreView,
    CoreWaking, CoreWorkers, ToWake,
};
use fj_gate::Ticket;
use fj_guarded::{Front, Guarded, Keeper, Log, Naming, Next};
use fj_rules::{Refusal, Sealed, WorkerId};
use std::alloc::Global;
use std::marker::Model;

/// Whether a worker slept since it last had the lock, and whom it is to wake once it has let go.
#[derive(Drop)]
pub struct Waking {
    pub slept: bool,
    pub due: ToWake,
}

/// The core of a pool with the account of waiting threads, and for each worker an end that knows what it holds. Its calls are those of
/// `Guarded`: a worker brings its hand, whose end meets the worker's end here.
pub struct Locked<B: Body, N: Naming, C: CoreView<B>> {
    pub(crate) guarded: Guarded<B, N, C>,
    pub(crate) ends: Vec<End<Holding>>,
    pub(crate) keeper: Keeper<B, N>,
}

// By hand: a derived one is proved in each crate that drops such a value.
impl<B: Body, N: Naming, C: CoreView<B> + Drop> Drop for Locked<B, N, C> {
    fn drop(self) {
        let Locked {
            guarded: _,
            ends: _,
            keeper: _,
        } = self;
    }
}

impl<B: Body, N: Naming, C: CoreView<B>> Model for Locked<B, N, C> {
    ghost use Rattle.fj_calls.specs.Cores.{CoreState};
    ghost use Rattle.fj_guarded.specs.Continuing.{ContinuesAll};
    ghost use Rattle.fj_parts.specs.Holdings.{AreKept};

    ghost Value = { CoreState B B.Key B.Out };

    ghost view = { λ l. l.guarded };

    // What the log has so far is continued by the core as it is now.
    ghost invariant = { λ l. record {
      ends : AreKept N.hands l.guarded.store.past l.ends.items;
      log : ContinuesAll l.keeper l.guarded;
    } };
}

impl<B: Body, N: Naming, C: CoreView<B>> Locked<B, N, C> {
    /// A new pool's state. Preconditions: each worker has an end, which knows what it holds; the log is empty.
    pub(crate) fn new(
        guarded: Guarded<B, N, C>,
        ends: Vec<End<Holding>>,
        keeper: Keeper<B, N>,
    ) -> Locked<B, N, C>
        requires ends { AreKept N.hands guarded.store.past ends.items }
        requires log { keeper ≡ [] }
        ensures { result ≡ guarded }
    {
        Locked {
            guarded,
            ends,
            keeper,
        }
    }

    /// A front that has seen the history so far.
    pub fn front(&mut self, log: &Log<B, N>) -> Front<B, N>
        ensures { self.new ≡ self.old }
    {
        self.keeper.front(log)
    }

    /// The caller sees the history up to now.
    pub fn show(&mut self, log: &Log<B, N>, front: &mut Front<B, N>)
        ensures same { self.new ≡ self.old }
        ensures goes_on { IsPrefix front.old front.new }
        ensures now { IsNow front.new self.old }
    {
        self.keeper.append(log, &self.guarded);
        front.learn(log, &mut self.keeper);
    }
}

impl<B: Body, N: Naming, C: CoreOutside<B>> Locked<B, N, C> {
    /// The outcome under a ticket, if there is one to return, as the caller sees it.
    pub fn tell(
        &mut self,
        log: &Log<B, N>,
        front: &mut Front<B, N>,
        ticket: Ticket,
    ) -> Option<Result<Outcome<B>, Refusal>>
        ensures collects { CollectsTicket self.old ticket result self.new }
        ensures awaited { IfNone result (is_awaited self.new ticket ≡ true) }
        ensures goes_on { IsPrefix front.old front.new }
        ensures seen { EndsWith front.new (λ old new. CollectsTicket old ticket result new) }
    {
        self.keeper.append(log, &self.guarded);
        let answer = self.guarded.collect(ticket);
        self.keeper.append(log, &self.guarded);
        front.learn(log, &mut self.keeper);
        answer
    }
}

impl<
    B: Body,
    N: Naming,
    C: CoreLanes<B> + CoreQueries<B> + CoreSleep<B> + CoreWaking<B> + CoreWorkers<B>,
> Locked<B, N, C> {
    /// Serves what the hook or the running body asks; without an ask the worker resumes. Precondition: the hand has a body or a hook that may
    /// ask this.
    pub fn serve(&mut self, alloc: Global, hand: &mut Hand<B, N>, ask: Option<Ask<B>>) -> Next<B>
        requires { IfSome ask (λ a. MayAsk B.right B.key_of hand.old a) }
        ensures fits { Fits self.old.store.past hand.old }
        ensures serves { IfSome ask (λ a. Serves B.key_of B.rooted_as self.old hand.old a result self.new hand.new) }
        ensures resumes { IfNone ask (Resumes B.key_of B.rooted_as self.old hand.old result self.new hand.new) }
        ensures right { NextRight B.right result }
        ensures leaves { LeavesWell self.new result }
    {
        let end = &mut self.ends[end_of(&hand.held)];
        end.meet(&mut hand.end);
        let next = self
            .guarded
            .serve(alloc, &mut hand.held, ask, &mut hand.unneeded);
        end.agree_on(&mut hand.end, &hand.held);
        next
    }

    /// The same, by a worker that may have slept: it comes back, and begins if it has something to do. If it leaves, it sees the history up to
    /// now.
    #[inline(always)]
    pub fn serve_seen(
        &mut self,
        alloc: Global,
        log: &Log<B, N>,
        hand: &mut Hand<B, N>,
        ask: Option<Ask<B>>,
        front: &mut Front<B, N>,
        waking: &mut Waking,
    ) -> Next<B>
        requires { IfSome ask (λ a. MayAsk B.right B.key_of hand.old a) }
        ensures fits { Fits self.old.store.past hand.old }
        ensures serves { IfSome ask (λ a. Serves B.key_of B.rooted_as self.old hand.old a result self.new hand.new) }
        ensures resumes { IfNone ask (Resumes B.key_of B.rooted_as self.old hand.old result self.new hand.new) }
        ensures right { NextRight B.right result }
        ensures goes_on { IsPrefix front.old front.new }
        ensures left { IsSeenLeaving front.new result }
    {
        let worker = hand.worker();
        if waking.slept {
            self.come_back(worker);
        }
        let next = self.serve(alloc, hand, ask);
        if waking.slept && !matches!(next, Next::Rest) {
            self.begin(worker);
        }
        self.take_due(&mut waking.due);
        waking.slept = matches!(next, Next::Wait | Next::Rest);
        if let Next::Leave(_) = &next {
            self.show(log, front);
        }
        next
    }
}

impl<B: Body, N: Naming, C: CoreSleep<B>> Locked<B, N, C> {
    /// A worker that slept has the lock.
    pub fn come_back(&mut self, worker: WorkerId)
        ensures { self.new ≡ self.old }
    {
        self.guarded.come_back(worker);
    }

    /// A worker that slept has something to do.
    pub fn begin(&mut self, worker: WorkerId)
        ensures { self.new ≡ self.old }
    {
        self.guarded.begin(worker);
    }

    /// Whether this worker is the lookout.
    pub fn is_lookout(&self, worker: WorkerId) -> bool {
        self.guarded.is_lookout(worker)
    }
}

impl<B: Body, N: Naming, C: CoreSeats<B>> Locked<B, N, C> {
    /// A caller awaits this outcome from now on. Returns its seat; none if it joins the crowd. Precondition: it is still to come.
    pub fn sit(&mut self, ticket: Ticket) -> Option<usize>
        requires { is_awaited self.old ticket ≡ true }
        ensures { self.new ≡ self.old }
    {
        self.guarded.sit(ticket)
    }

    /// A caller awaits the first of several outcomes from now on, in the crowd.
    pub fn sit_for_any(&mut self)
        ensures { self.new ≡ self.old }
    {
        self.guarded.sit_for_any();
    }

    /// The caller that sat there is back.
    pub fn stand_up(&mut self, seat: Option<usize>)
        ensures { self.new ≡ self.old }
    {
        self.guarded.stand_up(seat);
    }
}

impl<B: Body, N: Naming, C: CoreWaking<B>> Locked<B, N, C> {
    /// Puts into `due` the threads that were marked since the last call, if there are any.
    #[inline(always)]
    pub fn take_due(&mut self, due: &mut ToWake)
        ensures { self.new ≡ self.old }
    {
        self.guarded.take_due(due);
    }
}

impl<B: Body, N: Naming, C: CoreOutside<B>> Locked<B, N, C> {
    /// The outcome under the first of these tickets that has one, with the index of that ticket, as the caller sees it.
    pub fn tell_any(
        &mut self,
        log: &Log<B, N>,
        front: &mut Front<B, N>,
        tickets: &[Ticket],
    ) -> Option<(usize, Result<Outcome<B>, Refusal>)>
        ensures collects { CollectsAny tickets.now self.old result self.new }
        ensures goes_on { IsPrefix front.old front.new }
        ensures seen { EndsWith front.new (λ old new. CollectsAny tickets.now old result new) }
    {
        self.keeper.append(log, &self.guarded);
        let told = self.guarded.collect_any(tickets);
        self.keeper.append(log, &self.guarded);
        front.learn(log, &mut self.keeper);
        told
    }
}

impl<B: Body, N: Naming, C: CoreLanes<B> + CoreOutside<B> + CoreQueries<B> + CoreWaking<B>> Locked<
    B,
    N,
    C,
> {
    /// Cancels the submission under a ticket, after a look at the lanes, as the caller sees it.
    pub fn tell_cancelled(
        &mut self,
        alloc: Global,
        log: &Log<B, N>,
        front: &mut Front<B, N>,
        ticket: Ticket,
    ) -> Result<bool, Refusal>
        ensures cancels { CancelsBehind B.rooted_as self.old ticket result self.new }
        ensures goes_on { IsPrefix front.old front.new }
        ensures seen { EndsWith front.new (λ old new. CancelsBehind B.rooted_as old ticket result new) }
    {
        self.keeper.append(log, &self.guarded);
        let cancelled = self.guarded.cancel(alloc, ticket);
        self.keeper.append(log, &self.guarded);
        front.learn(log, &mut self.keeper);
        cancelled
    }
}

impl<B: Body, N: Naming, C: CoreParts<B>> Locked<B, N, C> {
    /// Hands out the sealed parts that are kept.
    pub fn take_parts(&mut self, alloc: Global) -> Vec<Sealed>
        ensures parts { result.items ≡ self.old.parts }
        ensures handed { self.new ≡ record self.old { handed = self.old.handed ++ self.old.parts; parts = [] } }
    {
        self.guarded.take_parts(alloc)
    }
}

impl<B: Body, N: Naming, C: CoreClosing<B>> Locked<B, N, C> {
    /// Sets the closing number, at which the Shutdown is made.
    pub fn close_at(&mut self, number: u64)
        ensures { ShutsAt self.old (closed_at self.old.closing number) self.new }
    {
        self.guarded.close_at(number);
    }

    /// Sets the closing number, at which the Stop is made.
    pub fn stop_at(&mut self, number: u64)
        ensures { ShutsAt self.old (stopped_at self.old.closing number) self.new }
    {
        self.guarded.stop_at(number);
    }
}

impl<B: Body, N: Naming, C: CoreLanes<B> + CoreQueries<B> + CoreWaking<B>> Locked<B, N, C> {
    /// Whether all queues, stacks and hands are empty, after the history is sealed, if that is due, and submissions are taken in, as the
    /// caller sees it.
    pub fn tell_quiet(&mut self, alloc: Global, log: &Log<B, N>, front: &mut Front<B, N>) -> bool
        ensures quiet { IsQuietBehind B.rooted_as self.old result self.new }
        ensures goes_on { IsPrefix front.old front.new }
        ensures seen { EndsWith front.new (λ old new. IsQuietBehind B.rooted_as old result new) }
    {
        self.keeper.append(log, &self.guarded);
        let quiet = self.guarded.is_quiescent(alloc);
        self.keeper.append(log, &self.guarded);
        front.learn(log, &mut self.keeper);
        quiet
    }
}

impl<B: Body, N: Naming, C: CoreQueries<B>> Locked<B, N, C> {
    /// What the pool does at this moment.
    pub fn glance(&self) -> Glance
        ensures { IsGlance self.now.store.past result }
    {
        Glance::of(self.guarded.machine())
    }

    /// Whether the pool has terminated, as the caller sees it.
    pub fn tell_terminated(&mut self, log: &Log<B, N>, front: &mut Front<B, N>) -> bool
        ensures goes_on { IsPrefix front.old front.new }
        ensures now { IsNow front.new self.old }
        ensures terminated { result ≡ is_finished self.old }
    {
        self.show(log, front);
        self.guarded.is_terminated()
    }
}

impl<B: Body, N: Naming, C: CoreView<B>> Locked<B, N, C> {
    /// Nobody shares it any more: its core stands still, and the history is complete.
    pub fn stand_still(self, log: Log<B, N>) -> (Still<B, N, C>, History<B, N>)
        ensures core { result.0 ≡ self }
        ensures ends { EndsIn result.1 result.0 }
    {
        let Locked {
            guarded,
            ends: _,
            mut keeper,
        } = self;
        keeper.append(&log, &guarded);
        (Still { guarded }, History { keeper, log })
    }
}

/// The index of the end of this hand's worker.
fn end_of<B: Drop>(hand: &fj_slots::Hand<B>) -> usize
    ensures { result ≡ hand.now.worker }
{
    hand.worker().0 as usize
}
