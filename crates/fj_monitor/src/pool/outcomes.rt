//! Outcomes, as threads that are no workers of the pool take them.
ghost use Rattle.std.specs.Prelude.{◌≡◌, ◌<◌, [], IfNone, IfOk, IfSome, Some, length};
ghost use mathlib.Core.List.{IsPrefix};
ghost use Rattle.fj_calls.specs.Cores.{CollectsTicket};
ghost use Rattle.fj_guarded.specs.Asked.{CollectsAt};
ghost use Rattle.fj_guarded.specs.Continuing.{EndsWith, IsToldNow};
ghost use Rattle.fj_monitor.specs.Telling.{IsToldAt};

use crate::pool::Pool;
use crate::pool::lock::unlock;
use crate::pool::work::LONGEST_WAIT;
use fj_body::{Body, Outcome};
use fj_calls::{CoreOutside, CoreSeats, CoreView, CoreWaking};
use fj_gate::Ticket;
use fj_guarded::{Front, Naming};
use fj_parts::Locked;
use fj_rules::Refusal;
use std::sync::{MutexGuard, Wait};
use std::time::Duration;

impl<B: Body, N: Naming, C: CoreOutside<B> + CoreSeats<B> + CoreWaking<B>> Pool<B, N, C> {
    /// Waits for the outcome of the submission under a ticket, which is delivered once: `ForkJoinTask.join`. A result in it is right for the
    /// key beside it.
    ///
    /// A task counts against the task limit until its outcome was delivered. So if more is submitted than the limit, ask for the outcomes of
    /// each submitter in the order of its submissions, and for those of several submitters from as many threads.
    ///
    /// `Unknown` if the outcome was delivered before, if a body had the result by a join or a take, or gave it up, or if the pool was shut down
    /// or stopped and all that was admitted was taken in, nothing of it under this ticket. `LogFull` if the core is stuck.
    pub fn await_done<R: Wait>(&self, rt: &R, ticket: Ticket) -> Result<Outcome<B>, Refusal> {
        let mut guard = self.lock(rt);
        let core = &mut *guard;
        let mut front = self.front_of(core);
        self.await_with(rt, guard, &mut front, ticket)
    }

    /// The same, as the caller sees it: the history goes on from what it had seen, up to the moment at which the outcome was delivered.
    pub fn await_seen<R: Wait>(
        &self,
        rt: &R,
        front: &mut Front<B, N>,
        ticket: Ticket,
    ) -> Result<Outcome<B>, Refusal>
        ensures goes_on { IsPrefix front.old front.new }
        ensures seen { EndsWith front.new (λ old new. CollectsTicket old ticket (Some result) new) }
        // The ticket is booked for a task, which has the status of the outcome.
        ensures told { IfOk result (λ outcome. IsToldNow front.new ticket outcome) }
    {
        self.await_with(rt, self.lock(rt), front, ticket)
    }

    /// The same, by a caller that has the lock.
    fn await_with<'p, R: Wait>(
        &'p self,
        rt: &R,
        mut guard: MutexGuard<'p, Locked<B, N, C>>,
        front: &mut Front<B, N>,
        ticket: Ticket,
    ) -> Result<Outcome<B>, Refusal>
        ensures goes_on { IsPrefix front.old front.new }
        ensures seen { EndsWith front.new (λ old new. CollectsTicket old ticket (Some result) new) }
        ensures told { IfOk result (λ outcome. IsToldNow front.new ticket outcome) }
    {
        for _ in rt.forever() {
            let core = &mut *guard;
            if let Some(answer) = core.tell(&self.log, front, ticket) {
                self.release(guard);
                return answer;
            }
            let seat = core.sit(ticket);
            guard = self.sleep_at(rt, guard, seat);
            let core = &mut *guard;
            core.stand_up(seat);
        }
        unreachable!()
    }
}

impl<B: Body, N: Naming, C: CoreView<B>> Pool<B, N, C> {
    /// Releases the lock, sleeps until the caller at this seat, or in the crowd, is notified, and takes the lock again.
    fn sleep_at<'p, R: Wait>(
        &'p self,
        rt: &R,
        guard: MutexGuard<'p, Locked<B, N, C>>,
        seat: Option<usize>,
    ) -> MutexGuard<'p, Locked<B, N, C>> {
        let condvar = self.shell.condvars.seat(seat);
        let seen = condvar.notifications();
        unlock(guard);
        condvar.sleep(rt, seen, Duration::from_secs(LONGEST_WAIT));
        self.lock(rt)
    }
}

impl<B: Body, N: Naming, C: CoreOutside<B> + CoreWaking<B>> Pool<B, N, C> {
    /// The outcome of the submission under a ticket, if it is ready: `ForkJoinTask.isDone`, and then `join`. It waits for the lock alone. None
    /// while the outcome is still to come. Refused as [`await_done`](Pool::await_done) is.
    pub fn try_done<R: Wait>(&self, rt: &R, ticket: Ticket) -> Option<Result<Outcome<B>, Refusal>> {
        let mut guard = self.lock(rt);
        let core = &mut *guard;
        let mut front = self.front_of(core);
        self.try_with(guard, &mut front, ticket)
    }

    /// The same, as the caller sees it.
    pub fn try_seen<R: Wait>(
        &self,
        rt: &R,
        front: &mut Front<B, N>,
        ticket: Ticket,
    ) -> Option<Result<Outcome<B>, Refusal>>
        ensures goes_on { IsPrefix front.old front.new }
        ensures seen { EndsWith front.new (λ old new. CollectsTicket old ticket result new) }
        ensures told { IfSome result (λ answer. IfOk answer (λ outcome. IsToldNow front.new ticket outcome)) }
    {
        self.try_with(self.lock(rt), front, ticket)
    }

    /// The same, by a caller that has the lock.
    fn try_with(
        &self,
        mut guard: MutexGuard<'_, Locked<B, N, C>>,
        front: &mut Front<B, N>,
        ticket: Ticket,
    ) -> Option<Result<Outcome<B>, Refusal>>
        ensures goes_on { IsPrefix front.old front.new }
        ensures seen { EndsWith front.new (λ old new. CollectsTicket old ticket result new) }
        ensures told { IfSome result (λ answer. IfOk answer (λ outcome. IsToldNow front.new ticket outcome)) }
    {
        let core = &mut *guard;
        let answer = core.tell(&self.log, front, ticket);
        self.release(guard);
        answer
    }
}

impl<B: Body, N: Naming, C: CoreOutside<B> + CoreSeats<B> + CoreWaking<B>> Pool<B, N, C> {
    /// Waits until an outcome under one of these tickets is ready, and returns the first in their order, with the index of its ticket:
    /// `ExecutorService.invokeAny` by tickets, failures too. It is delivered once. None if there is no ticket.
    ///
    /// Each time it wakes it walks over the tickets under the lock, up to the first that is ready: so put the oldest first. Refused as
    /// [`await_done`](Pool::await_done) is.
    pub fn await_any<R: Wait>(
        &self,
        rt: &R,
        tickets: &[Ticket],
    ) -> Option<(usize, Result<Outcome<B>, Refusal>)>
        ensures place { IfSome result (λ told. told.0 < length tickets.now) }
        ensures none { IfNone result (tickets.now ≡ []) }
    {
        let mut guard = self.lock(rt);
        let core = &mut *guard;
        let mut front = self.front_of(core);
        self.await_any_with(rt, guard, &mut front, tickets)
    }

    /// The same, as the caller sees it.
    pub fn await_any_seen<R: Wait>(
        &self,
        rt: &R,
        front: &mut Front<B, N>,
        tickets: &[Ticket],
    ) -> Option<(usize, Result<Outcome<B>, Refusal>)>
        ensures goes_on { IsPrefix front.old front.new }
        ensures seen { IfSome result (λ told. EndsWith front.new (λ old new. CollectsAt tickets.now old told.0 told.1 new)) }
        ensures place { IfSome result (λ told. told.0 < length tickets.now) }
        ensures none { IfNone result (tickets.now ≡ []) }
        // The first ticket that has an outcome is booked for a task, which has the status of the outcome.
        ensures told { IfSome result (λ told. IfOk told.1 (λ outcome. IsToldAt front.new tickets.now told.0 outcome)) }
    {
        self.await_any_with(rt, self.lock(rt), front, tickets)
    }

    /// The same, by a caller that has the lock.
    fn await_any_with<'p, R: Wait>(
        &'p self,
        rt: &R,
        mut guard: MutexGuard<'p, Locked<B, N, C>>,
        front: &mut Front<B, N>,
        tickets: &[Ticket],
    ) -> Option<(usize, Result<Outcome<B>, Refusal>)>
        ensures goes_on { IsPrefix front.old front.new }
        ensures seen { IfSome result (λ told. EndsWith front.new (λ old new. CollectsAt tickets.now old told.0 told.1 new)) }
        ensures place { IfSome result (λ told. told.0 < length tickets.now) }
        ensures none { IfNone result (tickets.now ≡ []) }
        ensures told { IfSome result (λ told. IfOk told.1 (λ outcome. IsToldAt front.new tickets.now told.0 outcome)) }
    {
        if tickets.is_empty() {
            return None;
        }
        for _ in rt.forever() {
            let core = &mut *guard;
            if let Some(told) = core.tell_any(&self.log, front, tickets) {
                self.release(guard);
                return Some(told);
            }
            core.sit_for_any();
            guard = self.sleep_at(rt, guard, None);
        }
        unreachable!()
    }
}
