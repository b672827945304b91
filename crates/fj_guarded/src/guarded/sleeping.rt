//! Threads go to sleep, and come back.
ghost use Rattle.std.specs.Prelude.{◌≡◌, true};
ghost use Rattle.fj_calls.specs.Cores.{is_awaited};

use crate::guarded::Guarded;
use fj_body::Body;
use fj_calls::{CoreSeats, CoreSleep, CoreWaking, ToWake};
use fj_gate::Ticket;
use fj_rules::WorkerId;
use fj_submitter::Naming;

impl<B: Body, N: Naming, C: CoreSleep<B>> Guarded<B, N, C> {
    /// A worker is back from its sleep.
    pub fn come_back(&mut self, worker: WorkerId)
        ensures { self.new ≡ self.old }
    {
        self.core.come_back(worker);
    }

    /// A worker has something to do after a sleep. If it was the lookout, another one that rests is from now on.
    pub fn begin(&mut self, worker: WorkerId)
        ensures { self.new ≡ self.old }
    {
        self.core.begin(worker);
    }

    /// A worker found nothing to do, and rests.
    pub(crate) fn rest(&mut self, worker: WorkerId)
        ensures { self.new ≡ self.old }
    {
        self.core.rest(worker);
    }

    /// Whether this worker, which has nothing to do, looks for work now and then.
    pub fn is_lookout(&self, worker: WorkerId) -> bool {
        self.core.is_lookout(worker)
    }
}

impl<B: Body, N: Naming, C: CoreSeats<B>> Guarded<B, N, C> {
    /// A caller awaits this outcome: at which seat, or at none where all are taken. Precondition: it is still to come.
    pub fn sit(&mut self, ticket: Ticket) -> Option<usize>
        requires { is_awaited self.old ticket ≡ true }
        ensures { self.new ≡ self.old }
    {
        self.core.sit(ticket)
    }

    /// A caller awaits the first of several outcomes, without a seat.
    pub fn sit_for_any(&mut self)
        ensures { self.new ≡ self.old }
    {
        self.core.sit_for_any();
    }

    /// The caller that sat there is back.
    pub fn stand_up(&mut self, seat: Option<usize>)
        ensures { self.new ≡ self.old }
    {
        self.core.stand_up(seat);
    }
}

impl<B: Body, N: Naming, C: CoreWaking<B>> Guarded<B, N, C> {
    /// Puts into `due` who is to be woken by all that was done since the last call, if anybody is.
    #[inline(always)]
    pub fn take_due(&mut self, due: &mut ToWake)
        ensures { self.new ≡ self.old }
    {
        self.core.take_due(due);
    }

    /// A task was queued for which no worker may be awake.
    #[inline(always)]
    pub(crate) fn task_queued(&mut self)
        ensures { self.new ≡ self.old }
    {
        self.core.wake_one();
    }

    /// Several tasks were queued.
    pub(crate) fn tasks_queued(&mut self)
        ensures { self.new ≡ self.old }
    {
        self.core.wake_workers();
    }

    /// The pool has terminated: everybody is to be woken.
    pub(crate) fn all_ended(&mut self)
        ensures { self.new ≡ self.old }
    {
        self.core.wake_all();
    }
}
