ghost use Rattle.std.specs.Prelude.{◌≡◌, ◌<◌, [], IfErr, IfNone, IfOk, IfSome, Some, length};
ghost use mathlib.Core.List.{IsPrefix};
ghost use Rattle.fj_calls.specs.Cores.{CollectsTicket};
ghost use Rattle.fj_guarded.specs.Asked.{CancelsBehind, CollectsAt};
ghost use Rattle.fj_guarded.specs.Continuing.{EndsWith, IsToldNow};
ghost use Rattle.fj_guarded.specs.Looking.{IsQuietBehind};
ghost use Rattle.fj_monitor.specs.Telling.{IsToldAt};
ghost use Rattle.fj_submitter.specs.Seats.{SubmitsBy};

use crate::types::Pool;
use fj_body::{Body, Outcome};
use fj_gate::Ticket;
use fj_guarded::{Front, Naming};
use fj_parts::Glance;
use fj_rules::{Refusal, Sealed, SubId};
use fj_submitter::Submitters;
use std::marker::Model;
use std::sync::Wait;

/// A pool whose workers are running, with all its submitters. Contracts see what of its history was seen, and what was submitted.
#[derive(Drop)]
pub struct Running<'p, 'r, B: Body, N: Naming, R> {
    pool: &'p Pool<B, N>,
    rt: &'r R,
    submitters: Submitters<B, N>,
    /// What was seen of the history. It has no bytes.
    front: Front<B, N>,
    /// The limit of live tasks.
    places: u32,
    /// How many outcomes were not asked for yet.
    outstanding: u32,
}

impl<'p, 'r, B: Body, N: Naming, R> Model for Running<'p, 'r, B, N, R> {
    ghost use Rattle.fj_run.specs.Playing.{RunningState};

    ghost Value = { RunningState B B.Key B.Out };

    ghost view = { λ r. record { seen = r.front; seats = r.submitters.all.items } };
}

impl<'p, 'r, B: Body, N: Naming, R: Wait> Running<'p, 'r, B, N, R> {
    /// Nothing was submitted yet.
    pub(crate) fn new(
        pool: &'p Pool<B, N>,
        rt: &'r R,
        submitters: Submitters<B, N>,
        places: u32,
    ) -> Running<'p, 'r, B, N, R>
        ensures { result.seats ≡ submitters.all.items }
    {
        Running {
            pool,
            rt,
            submitters,
            front: pool.front(rt),
            places,
            outstanding: 0,
        }
    }

    /// All submitters, in order of their numbers, and what was seen of the history.
    pub(crate) fn into_ends(self) -> (Submitters<B, N>, Front<B, N>)
        ensures seats { result.0.all.items ≡ self.entry.seats }
        ensures seen { result.1 ≡ self.entry.seen }
    {
        let Running {
            pool: _,
            rt: _,
            submitters,
            front,
            places: _,
            outstanding: _,
        } = self;
        (submitters, front)
    }

    /// How many submitters there are, each with a lane of its own.
    pub fn submitters(&self) -> usize {
        self.submitters.len()
    }

    /// How many more bodies a submitter takes in its life. None if there is no such submitter.
    pub fn left(&self, submitter: SubId) -> Option<u32> {
        self.submitters.left(submitter)
    }

    /// How many outcomes were not asked for yet.
    pub fn outstanding(&self) -> u32 {
        self.outstanding
    }

    /// Submits a body: `ForkJoinPool.submit`. It takes no lock and never blocks. The ticket is for the outcome.
    ///
    /// `TooManyTasks` if as many outcomes are outstanding as there may be live tasks, so that each submission finds room. `NoSuch` if there is
    /// no such submitter, `LaneSpent` if that has taken as many as it takes in its life. The body comes back each time.
    pub fn submit(&mut self, submitter: SubId, body: B) -> Result<Ticket, (Refusal, B)>
        ensures ok { IfOk result (λ ticket. SubmitsBy submitter self.old.seats ticket body self.new.seats) }
        ensures body { IfErr result (λ e. e.1 ≡ body) }
        ensures seen { self.new.seen ≡ self.old.seen }
    {
        if self.outstanding >= self.places {
            return Err((Refusal::TooManyTasks, body));
        }
        let answer = self.submitters.submit(submitter, body);
        self.outstanding = self.outstanding.saturating_add(u32::from(answer.is_ok()));
        answer
    }

    /// Waits for an outcome, which is delivered once: `Pool::await_seen`.
    pub fn await_done(&mut self, ticket: Ticket) -> Result<Outcome<B>, Refusal>
        ensures goes_on { IsPrefix self.old.seen self.new.seen }
        ensures seen { EndsWith self.new.seen (λ old new. CollectsTicket old ticket (Some result) new) }
        ensures told { IfOk result (λ outcome. IsToldNow self.new.seen ticket outcome) }
        ensures seats { self.new.seats ≡ self.old.seats }
    {
        let answer = self.pool.await_seen(self.rt, &mut self.front, ticket);
        self.outstanding = self.outstanding.saturating_sub(1);
        answer
    }

    /// The outcome, if it is ready: `Pool::try_seen`.
    pub fn try_done(&mut self, ticket: Ticket) -> Option<Result<Outcome<B>, Refusal>>
        ensures goes_on { IsPrefix self.old.seen self.new.seen }
        ensures seen { EndsWith self.new.seen (λ old new. CollectsTicket old ticket result new) }
        ensures told { IfSome result (λ answer. IfOk answer (λ outcome. IsToldNow self.new.seen ticket outcome)) }
        ensures seats { self.new.seats ≡ self.old.seats }
    {
        let answer = self.pool.try_seen(self.rt, &mut self.front, ticket);
        self.outstanding = self.outstanding.saturating_sub(u32::from(answer.is_some()));
        answer
    }

    /// Waits until one of several outcomes is ready, and returns the first in their order, with its index: `Pool::await_any_seen`.
    pub fn await_any(&mut self, tickets: &[Ticket]) -> Option<(usize, Result<Outcome<B>, Refusal>)>
        ensures goes_on { IsPrefix self.old.seen self.new.seen }
        ensures seen { IfSome result (λ told. EndsWith self.new.seen (λ old new. CollectsAt tickets.now old told.0 told.1 new)) }
        ensures place { IfSome result (λ told. told.0 < length tickets.now) }
        ensures none { IfNone result (tickets.now ≡ []) }
        ensures told { IfSome result (λ told. IfOk told.1 (λ outcome. IsToldAt self.new.seen tickets.now told.0 outcome)) }
        ensures seats { self.new.seats ≡ self.old.seats }
    {
        let told = self.pool.await_any_seen(self.rt, &mut self.front, tickets);
        self.outstanding = self.outstanding.saturating_sub(u32::from(told.is_some()));
        told
    }

    /// Cancels a submission: `Pool::cancel_seen`.
    pub fn cancel(&mut self, ticket: Ticket) -> Result<bool, Refusal>
        ensures goes_on { IsPrefix self.old.seen self.new.seen }
        ensures seen { EndsWith self.new.seen (λ old new. CancelsBehind B.rooted_as old ticket result new) }
        ensures seats { self.new.seats ≡ self.old.seats }
    {
        self.pool.cancel_seen(self.rt, &mut self.front, ticket)
    }

    /// Whether nothing is queued or running, after at most one parcel of each lane is taken in: `Pool::is_quiescent_seen`.
    pub fn is_quiescent(&mut self) -> bool
        ensures goes_on { IsPrefix self.old.seen self.new.seen }
        ensures seen { EndsWith self.new.seen (λ old new. IsQuietBehind B.rooted_as old result new) }
        ensures seats { self.new.seats ≡ self.old.seats }
    {
        self.pool.is_quiescent_seen(self.rt, &mut self.front)
    }

    /// A snapshot of what the pool does: `Pool::glance`.
    pub fn glance(&self) -> Glance {
        self.pool.glance(self.rt)
    }

    /// The sealed parts of the history that were not taken yet: `Pool::take_parts`.
    pub fn take_parts(&self) -> Vec<Sealed> {
        self.pool.take_parts(self.rt)
    }
}
