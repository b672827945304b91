ghost use Rattle.std.specs.Prelude.{◌≡◌, ◌≤◌, [], All, IfOk, IfSome, IsSome, vec_len};
ghost use Rattle.fj_lane.specs.declared.new_lane.TheConstants.{MAX_CAPACITY};
ghost use Rattle.fj_slots.specs.Hands.{asker};
ghost use Rattle.fj_body.specs.Acting.{Acts};
ghost use Rattle.fj_body.specs.Fitting.{Fits};
ghost use Rattle.fj_body.specs.Stores.{StaysInside};
ghost use Rattle.fj_body.specs.Turns.{AskRight, ToldRight};
ghost use Rattle.fj_calls.specs.Cores.{ChangesStore, IsNew, first_hands};

use crate::news::takes;
use crate::waits::Waits;
use fj_body::{Ask, Body, Outcome, Told};
use fj_calls::{
    CoreClosing, CoreLanes, CoreMaking, CoreOutside, CoreParts, CoreQueries, CoreSeats, CoreSleep,
    CoreView, CoreWaking, CoreWorkers, Intake, Remains, ToWake,
};
use fj_core::Core;
use fj_gate::Ticket;
use fj_lane::Drain;
use fj_machine::Machine;
use fj_rules::{Limits, Mode, OutOfMemory, Refusal, Sealed, Serial, SubId, WorkerId};
use fj_slots::Hand;
use std::alloc::Global;
use std::marker::Model;

/// A core, and the account of who sleeps. Contracts see it as the core. Its invariant: no wake-up is lost, so each thread that waits does so
/// for what has still to come. Its calls are those of the traits of `fj_calls`.
pub struct WakingCore<B: Body> {
    core: Core<B>,
    waits: Waits,
}

// By hand: a derived one is proved in each crate that drops such a value.
impl<B: Body> Drop for WakingCore<B> {
    fn drop(self) {
        let WakingCore { core: _, waits: _ } = self;
    }
}

impl<B: Body> Model for WakingCore<B> {
    ghost use Rattle.fj_calls.specs.Cores.{CoreState};
    ghost use Rattle.fj_wake.specs.Waiting.{NoLostWakeUp};

    ghost Value = { CoreState B B.Key B.Out };

    ghost view = { λ w. w.core };

    ghost invariant = { λ w. NoLostWakeUp w.waits w.core };
}

// Each call makes that of the core, and marks who is to be woken by it. The toolchain cannot give `new` and `act` the clauses of their traits, so
// they stand here again.
impl<B: Body> CoreView<B> for WakingCore<B> {
    ghost state = { λ w. w };
}

impl<B: Body> CoreMaking<B> for WakingCore<B> {
    fn new(
        alloc: Global,
        mode: Mode,
        limits: Limits,
        lane_capacity: u32,
        drains: Vec<Drain<B>>,
        start: u32,
    ) -> Result<(WakingCore<B>, Vec<Hand<B>>), OutOfMemory>
        requires lanes { vec_len drains ≡ limits.submitters }
        requires capacity { lane_capacity ≤ MAX_CAPACITY }
        requires capacities { All (λ d. d.capacity ≡ lane_capacity) drains.items }
        requires untouched { All (λ d. d.drained ≡ []) drains.items }
        ensures core { IfOk result (λ r. IsNew mode limits drains.items r.0) }
        ensures hands { IfOk result (λ r. r.1.items ≡ first_hands limits.workers start) }
    {
        let waits = Waits::new(alloc, limits.workers() as usize)?;
        let (core, hands) = Core::new(alloc, mode, limits, lane_capacity, drains, start)?;
        Ok((WakingCore { core, waits }, hands))
    }

    fn into_remains(self) -> Remains<B> {
        let WakingCore { core, waits: _ } = self;
        core.into_remains()
    }
}

impl<B: Body> CoreQueries<B> for WakingCore<B> {
    fn machine(&self) -> &Machine {
        self.core.machine()
    }

    fn is_closing(&self) -> bool {
        self.core.is_closing()
    }

    fn is_terminated(&self) -> bool {
        self.core.is_terminated()
    }
}

impl<B: Body> CoreOutside<B> for WakingCore<B> {
    /// Before a shutdown or a stop is made, workers that wait in joins are woken, too: there may be room now for what the lanes show, and they
    /// look there.
    fn collect(&mut self, ticket: Ticket) -> Option<Result<Outcome<B>, Refusal>> {
        let place = self.core.machine().history().len();
        let answer = self.core.collect(ticket);
        self.waits.tell_ended(&self.core, place);
        let room = answer.is_some() && self.core.is_closing() && !self.core.machine().is_shut();
        self.waits.wake_joining_if(room);
        answer
    }

    fn cancel(&mut self, ticket: Ticket) -> Result<bool, Refusal> {
        let place = self.core.machine().history().len();
        let answer = self.core.cancel(ticket);
        self.waits.tell_ended(&self.core, place);
        answer
    }
}

impl<B: Body> CoreClosing<B> for WakingCore<B> {
    fn close_at(&mut self, number: u64) {
        self.core.close_at(number);
        self.waits.wake_all();
    }

    fn stop_at(&mut self, number: u64) {
        self.core.stop_at(number);
        self.waits.wake_all();
    }
}

impl<B: Body> CoreParts<B> for WakingCore<B> {
    fn take_parts(&mut self, alloc: Global) -> Vec<Sealed> {
        self.core.take_parts(alloc)
    }
}

impl<B: Body> CoreLanes<B> for WakingCore<B> {
    fn intake(&mut self, s: SubId) -> Intake {
        let answer = self.core.intake(s);
        let took = takes(&answer);
        self.waits.tell_intake(&self.core, took);
        answer
    }

    fn seal(&mut self, alloc: Global) -> Result<(), Refusal> {
        self.core.seal(alloc)
    }

    fn is_seal_due(&self) -> bool {
        self.core.is_seal_due()
    }

    fn holds_back(&self) -> bool {
        self.core.holds_back()
    }
}

impl<B: Body> CoreWorkers<B> for WakingCore<B> {
    #[inline(always)]
    fn act(&mut self, hand: &mut Hand<B>, ask: Ask<B>) -> Told<B>
        requires fits { Fits self.old.store.past hand.old }
        requires busy { IsSome (asker hand.old) }
        requires right { IfSome (asker hand.old) (λ b. AskRight B.right (B.key_of b.1) ask) }
        ensures acts { Acts B.key_of self.old.store hand.old ask result self.new.store hand.new }
        ensures others { ChangesStore self.old self.new }
        ensures stays { StaysInside self.old.store self.new.store }
        ensures right { ToldRight B.right result }
        ensures fits { Fits self.new.store.past hand.new }
    {
        let place = self.core.machine().history().len();
        let told = self.core.act(hand, ask);
        self.waits.tell(&self.core, place);
        told
    }

    #[inline(always)]
    fn poll(&mut self, hand: &mut Hand<B>) -> Told<B> {
        let place = self.core.machine().history().len();
        let told = self.core.poll(hand);
        self.waits.tell_ended(&self.core, place);
        told
    }

    fn is_joinable(&self, t: Serial) -> bool {
        !self.core.is_stuck() && self.core.is_undone(t)
    }

    fn wait_for(&mut self, worker: WorkerId, t: Serial) {
        self.waits.wait_for(worker, t);
    }
}

impl<B: Body> CoreSleep<B> for WakingCore<B> {
    fn come_back(&mut self, worker: WorkerId) {
        self.waits.come_back(worker);
    }

    fn begin(&mut self, worker: WorkerId) {
        self.waits.begin(worker);
    }

    fn rest(&mut self, worker: WorkerId) {
        self.waits.rest(worker);
    }

    fn is_lookout(&self, worker: WorkerId) -> bool {
        self.waits.is_lookout(worker)
    }
}

impl<B: Body> CoreSeats<B> for WakingCore<B> {
    fn sit(&mut self, ticket: Ticket) -> Option<usize> {
        self.waits.sit(ticket)
    }

    fn sit_for_any(&mut self) {
        self.waits.sit_for_any();
    }

    fn stand_up(&mut self, seat: Option<usize>) {
        self.waits.stand_up(seat);
    }
}

impl<B: Body> CoreWaking<B> for WakingCore<B> {
    #[inline(always)]
    fn take_due(&mut self, due: &mut ToWake) {
        self.waits.take_due(due);
    }

    #[inline(always)]
    fn wake_one(&mut self) {
        self.waits.wake_one();
    }

    fn wake_workers(&mut self) {
        self.waits.wake_workers();
    }

    fn wake_all(&mut self) {
        self.waits.wake_all();
    }
}
