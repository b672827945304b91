//! What a worker does, from its start to the end of its pool.
ghost use Rattle.std.specs.Prelude.{◌<◌, IfSome, length};
ghost use mathlib.Core.List.{IsPrefix};
ghost use Rattle.fj_calls.specs.Cores.{CoreState};
ghost use Rattle.fj_guarded.specs.Continuing.{IsNow};
ghost use Rattle.fj_guarded.specs.Turning.{IsSeenLeaving, MayAsk, MayLeave, NextRight};

use crate::pool::Pool;
use crate::pool::lock::unlock;
use crate::turns::follow;
use fj_body::{Ask, Body, Turnstile};
use fj_calls::{
    CoreLanes, CoreQueries, CoreSleep, CoreView, CoreWaking, CoreWorkers, ToWake, place_of,
};
use fj_guarded::{Front, Naming, Next};
use fj_parts::{Hand, Locked, Waking};
use fj_rules::{Refusal, WorkerId};
use fj_sleep::{Contention, Idle};
use std::sync::{MutexGuard, Wait};
use std::thread;
use std::time::Duration;

/// The longest sleep, in seconds: then a thread looks again, also without a notification.
pub(crate) const LONGEST_WAIT: u64 = 1;

/// How a worker backs off, without work and at the lock.
#[derive(Drop)]
struct Pace {
    idle: Idle,
    contention: Contention,
    waking: Waking,
}

/// A thread that works: its runtime, its observer and its worker.
#[derive(Drop)]
struct Working<'r, 't, R, T> {
    rt: &'r R,
    turnstile: &'t T,
    worker: WorkerId,
}

impl<
    B: Body,
    N: Naming,
    C: CoreLanes<B> + CoreQueries<B> + CoreSleep<B> + CoreWaking<B> + CoreWorkers<B>,
> Pool<B, N, C> {
    /// Works with a hand until the pool has terminated: takes tasks, runs their bodies outside the lock, and serves what they ask. A body
    /// that joins or helps stays on the explicit stack of the hand while another one runs. It follows `ForkJoinWorkerThread.run`.
    ///
    /// `LogFull` if the core is stuck; there is no other refusal.
    pub fn work<R: Wait, T: Turnstile>(
        &self,
        rt: &R,
        hand: &mut Hand<B, N>,
        turnstile: &T,
    ) -> Result<(), Refusal> {
        let mut front = self.front(rt);
        self.work_seen(rt, hand, turnstile, &mut front)
    }

    /// The same, as the worker sees it: in the last moment that it has seen then it may leave.
    pub fn work_seen<R: Wait, T: Turnstile>(
        &self,
        rt: &R,
        hand: &mut Hand<B, N>,
        turnstile: &T,
        front: &mut Front<B, N>,
    ) -> Result<(), Refusal>
        ensures goes_on { IsPrefix front.old front.new }
        ensures left { (core : CoreState B B.Key B.Out) × IsNow front.new core × MayLeave core result }
    {
        let working = Working {
            rt,
            turnstile,
            worker: hand.worker(),
        };
        let mut ask: Option<Ask<B>> = None;
        let mut pace = Pace {
            idle: Idle::new(),
            contention: Contention::new(),
            waking: Waking {
                slept: false,
                due: ToWake::nobody(),
            },
        };
        for _ in rt.forever() {
            let next = self.serve(&working, hand, ask, &mut pace, front);
            if let Next::Leave(answer) = next {
                return answer;
            }
            ask = follow(next, hand, turnstile);
        }
        unreachable!()
    }

    /// One holding of the lock, with the wait that follows if there is nothing to do.
    #[inline(always)]
    fn serve<R: Wait, T: Turnstile>(
        &self,
        working: &Working<'_, '_, R, T>,
        hand: &mut Hand<B, N>,
        ask: Option<Ask<B>>,
        pace: &mut Pace,
        front: &mut Front<B, N>,
    ) -> Next<B>
        requires there { working.now.worker < length N.hands }
        requires asks { IfSome ask (λ a. MayAsk B.right B.key_of hand.old a) }
        ensures right { NextRight B.right result }
        ensures goes_on { IsPrefix front.old front.new }
        ensures left { IsSeenLeaving front.new result }
    {
        let mut guard = self.lock_for_work(working.rt, &mut pace.contention);
        let core = &mut *guard;
        let next = core.serve_seen(self.alloc, &self.log, hand, ask, front, &mut pace.waking);
        match next {
            Next::Wait => self.wait_in_join(working, guard, &mut pace.waking.due, hand),
            Next::Rest => self.rest(working, guard, pace, hand),
            Next::Begin(_) => {
                pace.idle = Idle::new();
                self.let_go(guard, &mut pace.waking.due, hand);
            }
            _ => self.let_go(guard, &mut pace.waking.due, hand),
        }
        next
    }
}

impl<B: Body, N: Naming, C: CoreView<B>> Pool<B, N, C> {
    /// Releases the lock, notifies the threads that are due, and drops what is not needed any more.
    #[inline(always)]
    fn let_go(
        &self,
        guard: MutexGuard<'_, Locked<B, N, C>>,
        due: &mut ToWake,
        hand: &mut Hand<B, N>,
    ) {
        unlock(guard);
        self.wake_due(due);
        hand.clear();
    }

    /// The same, and sleeps until what was joined may have changed.
    fn wait_in_join<R: Wait, T: Turnstile>(
        &self,
        working: &Working<'_, '_, R, T>,
        guard: MutexGuard<'_, Locked<B, N, C>>,
        due: &mut ToWake,
        hand: &mut Hand<B, N>,
    )
        requires { working.now.worker < length N.hands }
    {
        let place = &self.shell.condvars.workers[place_of(working.worker)];
        let seen = place.notifications();
        self.let_go(guard, due, hand);
        // If this leads to a task being queued, that notification comes after those that were seen.
        working.turnstile.idle(working.worker);
        place.sleep(working.rt, seen, Duration::from_secs(LONGEST_WAIT));
    }
}

impl<B: Body, N: Naming, C: CoreSleep<B>> Pool<B, N, C> {
    /// The same, and yields, or sleeps until there is work; the lookout sleeps until it is time to look for some.
    fn rest<R: Wait, T: Turnstile>(
        &self,
        working: &Working<'_, '_, R, T>,
        guard: MutexGuard<'_, Locked<B, N, C>>,
        pace: &mut Pace,
        hand: &mut Hand<B, N>,
    )
        requires { working.now.worker < length N.hands }
    {
        let place = &self.shell.condvars.workers[place_of(working.worker)];
        let seen = place.notifications();
        let core = &*guard;
        let looks = core.is_lookout(working.worker);
        self.let_go(guard, &mut pace.waking.due, hand);
        working.turnstile.idle(working.worker);
        match pace.idle.next_sleep() {
            Some(sleep) if looks => place.sleep(working.rt, seen, sleep),
            Some(_) => place.sleep(working.rt, seen, Duration::from_secs(LONGEST_WAIT)),
            None => thread::yield_now(),
        }
    }
}
