//! Calls from outside, and the intake of submissions.
ghost use Rattle.std.specs.Prelude.{◌≡◌, ◌<◌, ◌++◌, [], true, IfNone, IfSome};
ghost use Rattle.fj_calls.specs.Closes.{ShutsAt, closed_at, is_finished, stopped_at};
ghost use Rattle.fj_calls.specs.Cores.{CollectsTicket, is_awaited};
ghost use Rattle.fj_calls.specs.Sealing.{may_be_sealed};
ghost use Rattle.fj_guarded.specs.Lanes.{KeepsLanes};
ghost use Rattle.fj_guarded.specs.Asked.{CancelsBehind, CollectsAny};
ghost use Rattle.fj_guarded.specs.Looking.{IsQuietBehind, LooksAtLanes, SealsWhere, TakesEach, TakesFrom, behind, with_answer};

use crate::guarded::Guarded;
use fj_body::{Body, Outcome};
use fj_calls::{CoreClosing, CoreLanes, CoreOutside, CoreParts, CoreQueries, CoreWaking, Intake};
use fj_gate::Ticket;
use fj_rules::{Refusal, Sealed, SubId};
use fj_submitter::Naming;
use std::alloc::Global;

/// How many tasks a look at the lanes queued.
#[derive(Clone, Copy)]
pub enum TakenIn {
    Nothing,
    One,
    Several,
}

impl<B: Body, N: Naming, C: CoreLanes<B> + CoreQueries<B> + CoreWaking<B>> Guarded<B, N, C> {
    /// A look at the lanes, by a worker or a caller that cancels: seals the history if that is due, and then takes in submissions, unless the core holds back.
    pub(crate) fn look_at_lanes(&mut self, alloc: Global) -> TakenIn
        ensures { LooksAtLanes B.rooted_as self.old result self.new }
    {
        self.seal_where_due(alloc);
        if self.core.holds_back() {
            return TakenIn::Nothing;
        }
        self.take_in()
    }

    /// Takes in at most one parcel of each lane, by rising number, and returns how many tasks that queued. It begins at the submitter for
    /// which the last look found no room: otherwise a place that becomes free now and then would always go to the first submitter.
    fn take_in(&mut self) -> TakenIn
        ensures { TakesEach B.rooted_as self.old result self.new }
    {
        let (taken, first) = take_each(&mut self.core, self.first);
        self.first = first;
        if let TakenIn::Several = taken {
            self.core.wake_workers();
        }
        taken
    }
}

impl<B: Body, N: Naming, C: CoreLanes<B>> Guarded<B, N, C> {
    /// Seals the history if that is due. A refusal is ignored: the next look retries.
    fn seal_where_due(&mut self, alloc: Global)
        ensures { SealsWhere (may_be_sealed self.old.store.past) self.old self.new }
    {
        if self.core.is_seal_due() {
            let _sealed = self.core.seal(alloc);
        }
    }
}

impl<B: Body, N: Naming, C: CoreOutside<B>> Guarded<B, N, C> {
    /// The outcome under a ticket, as `Core::collect` returns it.
    pub fn collect(&mut self, ticket: Ticket) -> Option<Result<Outcome<B>, Refusal>>
        ensures collects { CollectsTicket self.old ticket result self.new }
        ensures awaited { IfNone result (is_awaited self.new ticket ≡ true) }
    {
        self.core.collect(ticket)
    }

    /// The outcome under the first of these tickets for which `Core::collect` returns one, with the index of that ticket.
    pub fn collect_any(
        &mut self,
        tickets: &[Ticket],
    ) -> Option<(usize, Result<Outcome<B>, Refusal>)>
        ensures { CollectsAny tickets.now self.old result self.new }
    {
        for place in 0..tickets.len() {
            if let Some(answer) = self.collect(tickets[place]) {
                return Some((place, answer));
            }
        }
        None
    }
}

impl<B: Body, N: Naming, C: CoreLanes<B> + CoreOutside<B> + CoreQueries<B> + CoreWaking<B>> Guarded<
    B,
    N,
    C,
> {
    /// Cancels the submission under a ticket, after a look at the lanes.
    pub fn cancel(&mut self, alloc: Global, ticket: Ticket) -> Result<bool, Refusal>
        ensures { CancelsBehind B.rooted_as self.old ticket result self.new }
    {
        if let TakenIn::One = self.look_at_lanes(alloc) {
            self.task_queued();
        }
        self.core.cancel(ticket)
    }
}

impl<B: Body, N: Naming, C: CoreParts<B>> Guarded<B, N, C> {
    /// Hands out the sealed parts that are kept.
    pub fn take_parts(&mut self, alloc: Global) -> Vec<Sealed>
        ensures parts { result.items ≡ self.old.parts }
        ensures handed { self.new ≡ record self.old { handed = self.old.handed ++ self.old.parts; parts = [] } }
    {
        self.core.take_parts(alloc)
    }
}

impl<B: Body, N: Naming, C: CoreClosing<B>> Guarded<B, N, C> {
    /// Sets the closing number, at which the Shutdown is made.
    pub fn close_at(&mut self, number: u64)
        ensures { ShutsAt self.old (closed_at self.old.closing number) self.new }
    {
        self.core.close_at(number);
    }

    /// Sets the closing number, at which the Stop is made.
    pub fn stop_at(&mut self, number: u64)
        ensures { ShutsAt self.old (stopped_at self.old.closing number) self.new }
    {
        self.core.stop_at(number);
    }
}

impl<B: Body, N: Naming, C: CoreLanes<B> + CoreQueries<B> + CoreWaking<B>> Guarded<B, N, C> {
    /// Whether all queues, stacks and hands are empty, after the history is sealed, if that is due, and submissions are taken in.
    pub fn is_quiescent(&mut self, alloc: Global) -> bool
        ensures { IsQuietBehind B.rooted_as self.old result self.new }
    {
        self.seal_where_due(alloc);
        if let TakenIn::One = self.take_in() {
            self.task_queued();
        }
        self.core.machine().is_quiescent()
    }
}

impl<B: Body, N: Naming, C: CoreQueries<B>> Guarded<B, N, C> {
    /// Whether the pool has terminated.
    pub fn is_terminated(&self) -> bool
        ensures { result ≡ is_finished self.now }
    {
        self.core.is_terminated()
    }
}

/// One intake for each submitter, from this one on. Also returns the first for which there was no room, or else this one.
fn take_each<B: Body, C: CoreLanes<B> + CoreQueries<B>>(
    core: &mut C,
    first: SubId,
) -> (TakenIn, SubId)
    requires { first < (C.state core.old).store.past.pool.limits.submitters }
    ensures takes { TakesFrom B.rooted_as (C.state core.old).store.past.pool.limits.submitters first (C.state core.old).store.past.pool.limits.submitters (C.state core.old) result.0 (C.state core.new) }
    ensures next { result.1 < (C.state core.old).store.past.pool.limits.submitters }
    ensures lanes { KeepsLanes (C.state core.old) (C.state core.new) }
    ensures pool { (C.state core.new).store.past.pool ≡ (C.state core.old).store.past.pool }
{
    let submitters = core.machine().limits().submitters();
    let mut taken = TakenIn::Nothing;
    let mut s = first;
    let mut waits = None;
    for _look in 0..submitters {
        let answer = core.intake(s);
        taken = count(taken, &answer);
        waits = waits.or(full(&answer, s));
        s = next_behind(s, submitters);
    }
    (taken, waits.unwrap_or(first))
}

/// The submitter, if there was no room for its submission.
fn full(answer: &Intake, s: SubId) -> Option<SubId>
    ensures { IfSome result (λ t. t ≡ s) }
{
    match answer {
        Intake::Full(_) => Some(s),
        _ => None,
    }
}

/// The next submitter; after the last one comes the first. Precondition: the submitter exists.
fn next_behind(s: SubId, submitters: u32) -> SubId
    requires { s < submitters }
    ensures is { result ≡ behind submitters s }
    ensures within { result < submitters }
{
    if s.0 + 1 < submitters {
        SubId(s.0 + 1)
    } else {
        SubId(0)
    }
}

/// The count after this answer of an intake.
fn count(taken: TakenIn, answer: &Intake) -> TakenIn
    ensures { result ≡ with_answer taken answer.now }
{
    match (answer, taken) {
        (Intake::Took(_), TakenIn::Nothing) => TakenIn::One,
        (Intake::Took(_), _) => TakenIn::Several,
        _ => taken,
    }
}
