//! Other calls by threads that are no workers of the pool.
ghost use Rattle.std.specs.Prelude.{◌≡◌};
ghost use mathlib.Core.List.{IsPrefix};
ghost use Rattle.fj_calls.specs.Closes.{is_finished};
ghost use Rattle.fj_calls.specs.Cores.{CoreState};
ghost use Rattle.fj_guarded.specs.Asked.{CancelsBehind};
ghost use Rattle.fj_guarded.specs.Continuing.{EndsWith, IsNow};
ghost use Rattle.fj_guarded.specs.Looking.{IsQuietBehind};

use crate::pool::Pool;
use crate::pool::lock::unlock;
use fj_body::Body;
use fj_calls::{CoreClosing, CoreLanes, CoreOutside, CoreParts, CoreQueries, CoreView, CoreWaking};
use fj_gate::{Closing, Ticket};
use fj_guarded::{Front, Naming};
use fj_parts::{Closer, Glance, Locked};
use fj_rules::{Refusal, Sealed};
use std::sync::{MutexGuard, Wait};

impl<B: Body, N: Naming, C: CoreView<B>> Pool<B, N, C> {
    /// A front that has seen the history so far. It waits for the lock alone.
    pub fn front<R: Wait>(&self, rt: &R) -> Front<B, N> {
        let mut guard = self.lock(rt);
        let core = &mut *guard;
        let front = self.front_of(core);
        unlock(guard);
        front
    }

    /// The same, under the lock.
    pub(crate) fn front_of(&self, core: &mut Locked<B, N, C>) -> Front<B, N> {
        core.front(&self.log)
    }
}

impl<B: Body, N: Naming, C: CoreLanes<B> + CoreOutside<B> + CoreQueries<B> + CoreWaking<B>> Pool<
    B,
    N,
    C,
> {
    /// Cancels the submission under a ticket: `ForkJoinTask.cancel`. True if it is cancelled now, also if it was before; false if it ended
    /// otherwise. Its outcome is still to be asked for. A body that runs goes on to its end.
    ///
    /// First it looks at the lanes, as a worker does. `Unknown` if the submission is still in its lane after that, behind others or without
    /// room for it, or if its task was released. `LogFull` if the core is stuck, or the history is full.
    pub fn cancel<R: Wait>(&self, rt: &R, ticket: Ticket) -> Result<bool, Refusal> {
        let mut guard = self.lock(rt);
        let core = &mut *guard;
        let mut front = self.front_of(core);
        self.cancel_with(guard, &mut front, ticket)
    }

    /// The same, as the caller sees it.
    pub fn cancel_seen<R: Wait>(
        &self,
        rt: &R,
        front: &mut Front<B, N>,
        ticket: Ticket,
    ) -> Result<bool, Refusal>
        ensures goes_on { IsPrefix front.old front.new }
        ensures seen { EndsWith front.new (λ old new. CancelsBehind B.rooted_as old ticket result new) }
    {
        self.cancel_with(self.lock(rt), front, ticket)
    }

    /// The same, by a caller that has the lock.
    fn cancel_with(
        &self,
        mut guard: MutexGuard<'_, Locked<B, N, C>>,
        front: &mut Front<B, N>,
        ticket: Ticket,
    ) -> Result<bool, Refusal>
        ensures goes_on { IsPrefix front.old front.new }
        ensures seen { EndsWith front.new (λ old new. CancelsBehind B.rooted_as old ticket result new) }
    {
        let core = &mut *guard;
        let answer = core.tell_cancelled(self.alloc, &self.log, front, ticket);
        self.release(guard);
        answer
    }
}

impl<B: Body, N: Naming, C: CoreParts<B>> Pool<B, N, C> {
    /// The sealed parts of the history that were not taken yet, the oldest first. It allocates nothing, and waits for the lock alone.
    ///
    /// Each part is returned once, in order: two calls give consecutive runs of the history, and the record of a pool that is wound up begins
    /// where the last call ended. Calls are optional: what is not taken is kept for the record. Java has no counterpart: it keeps no history.
    pub fn take_parts<R: Wait>(&self, rt: &R) -> Vec<Sealed> {
        let mut guard = self.core.lock(rt);
        let core = &mut *guard;
        let parts = core.take_parts(self.alloc);
        unlock(guard);
        parts
    }
}

impl<B: Body, N: Naming, C: CoreClosing<B> + CoreWaking<B>> Pool<B, N, C> {
    /// Admits nothing more; what was admitted is run, and then the workers leave: `ForkJoinPool.shutdown`. A repeat has no effect.
    ///
    /// It completes only if all that was admitted can be taken in: a task counts against the limit until its outcome was delivered.
    pub fn shutdown<R: Wait>(&self, rt: &R, closer: &mut Closer<N>) {
        let number = number_of(closer.close());
        let mut guard = self.core.lock(rt);
        let core = &mut *guard;
        core.close_at(number);
        self.release(guard);
    }

    /// Admits nothing more; once all that was admitted was taken in, every undone task is cancelled, and the workers leave:
    /// `ForkJoinPool.shutdownNow`. It may follow a shutdown. A repeat has no effect. It needs the same as a shutdown to complete.
    pub fn shutdown_now<R: Wait>(&self, rt: &R, closer: &mut Closer<N>) {
        let number = number_of(closer.close());
        let mut guard = self.core.lock(rt);
        let core = &mut *guard;
        core.stop_at(number);
        self.release(guard);
    }
}

impl<B: Body, N: Naming, C: CoreQueries<B>> Pool<B, N, C> {
    /// A snapshot of what the pool does. It waits for the lock alone, and takes nothing in.
    pub fn glance<R: Wait>(&self, rt: &R) -> Glance {
        let mut guard = self.core.lock(rt);
        let core = &mut *guard;
        let glance = core.glance();
        unlock(guard);
        glance
    }
}

impl<B: Body, N: Naming, C: CoreLanes<B> + CoreQueries<B> + CoreWaking<B>> Pool<B, N, C> {
    /// Whether all queues are empty and no worker runs anything, after at most one parcel of each lane is taken in:
    /// `ForkJoinPool.isQuiescent`.
    ///
    /// Submissions that stay in their lanes do not count. Before it takes anything in it seals the history, if that is due, which allocates; a
    /// refusal of that is ignored.
    pub fn is_quiescent<R: Wait>(&self, rt: &R) -> bool {
        let mut guard = self.core.lock(rt);
        let core = &mut *guard;
        let mut front = self.front_of(core);
        self.ask_quiet(guard, &mut front)
    }

    /// The same, as the caller sees it.
    pub fn is_quiescent_seen<R: Wait>(&self, rt: &R, front: &mut Front<B, N>) -> bool
        ensures goes_on { IsPrefix front.old front.new }
        ensures seen { EndsWith front.new (λ old new. IsQuietBehind B.rooted_as old result new) }
    {
        self.ask_quiet(self.core.lock(rt), front)
    }

    /// The same, by a caller that has the lock.
    fn ask_quiet(&self, mut guard: MutexGuard<'_, Locked<B, N, C>>, front: &mut Front<B, N>) -> bool
        ensures goes_on { IsPrefix front.old front.new }
        ensures seen { EndsWith front.new (λ old new. IsQuietBehind B.rooted_as old result new) }
    {
        let core = &mut *guard;
        let quiescent = core.tell_quiet(self.alloc, &self.log, front);
        self.release(guard);
        quiescent
    }
}

impl<B: Body, N: Naming, C: CoreQueries<B>> Pool<B, N, C> {
    /// Whether it was shut down or stopped, all that was admitted was taken in, and it is quiescent: `ForkJoinPool.isTerminated`.
    pub fn is_terminated<R: Wait>(&self, rt: &R) -> bool {
        let mut guard = self.core.lock(rt);
        let core = &mut *guard;
        let mut front = self.front_of(core);
        self.ask_terminated(guard, &mut front)
    }

    /// The same, as the caller sees it: of the last moment that it has seen then.
    pub fn is_terminated_seen<R: Wait>(&self, rt: &R, front: &mut Front<B, N>) -> bool
        ensures goes_on { IsPrefix front.old front.new }
        ensures now { (core : CoreState B B.Key B.Out) × IsNow front.new core × (result ≡ is_finished core) }
    {
        self.ask_terminated(self.core.lock(rt), front)
    }

    /// The same, by a caller that has the lock.
    fn ask_terminated(
        &self,
        mut guard: MutexGuard<'_, Locked<B, N, C>>,
        front: &mut Front<B, N>,
    ) -> bool
        ensures goes_on { IsPrefix front.old front.new }
        ensures now { (core : CoreState B B.Key B.Out) × IsNow front.new core × (result ≡ is_finished core) }
    {
        let core = &mut *guard;
        let terminated = core.tell_terminated(&self.log, front);
        unlock(guard);
        terminated
    }
}

/// How many were admitted.
fn number_of(closing: Closing) -> u64 {
    match closing {
        Closing::First(number) | Closing::Already(number) => number,
    }
}
