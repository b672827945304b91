ghost use Rattle.std.specs.Prelude.{◌≡◌, ◌+◌, IfOk, IfErr, length};
ghost use Rattle.fj_submitter.specs.Seats.{IsNamed, IsSeat, RefusesSubmission, Submits};

use crate::naming::Naming;
use crate::seat::Seat;
use fj_gate::Ticket;
use fj_rules::{Refusal, SubId};
use std::marker::{Model, PhantomData};

/// Submits bodies. There is one for each submitter of a pool. Java has no counterpart: there any thread may submit.
#[derive(Drop)]
pub struct Submitter<B, N: Naming> {
    pub(crate) seat: Seat<B>,
    pub(crate) of: PhantomData<N>,
}

impl<B, N: Naming> Model for Submitter<B, N> {
    ghost use Rattle.fj_submitter.specs.Seats.{IsNamed, SeatState};

    ghost Value = { SeatState B };

    ghost view = { λ s. s.seat };

    ghost invariant = { λ s. IsNamed N.gate N.lanes s.seat };
}

impl<B, N: Naming> Submitter<B, N> {
    /// Submits a body, by one atomic operation on the gate and one push into the lane of this submitter: `ForkJoinPool.submit`. It takes no
    /// lock, never blocks, and never runs out of memory. The ticket is for the outcome.
    ///
    /// `LaneSpent` once the lane has taken as many bodies as it takes in its life, also if the pool was shut down or stopped; then the gate is
    /// not asked. `Closed` once the gate is closed. The body comes back in both cases.
    pub fn submit(&mut self, body: B) -> Result<Ticket, (Refusal, B)>
        ensures ok { IfOk result (λ ticket. Submits self.old ticket body self.new) }
        ensures refused { IfErr result (λ e. RefusesSubmission self.old e.0 self.new) }
        ensures body { IfErr result (λ e. e.1 ≡ body) }
        // In every submitter the tickets of what was pushed are those that it drew.
        ensures tickets { IsSeat self.new }
    {
        self.seat.submit(body)
    }

    /// How many more bodies it takes in its life.
    pub fn left(&self) -> u32
        ensures { length self.now.feed.fed + result ≡ self.now.feed.capacity }
    {
        self.seat.feed.left()
    }

    /// Which submitter it is, from 0.
    pub fn number(&self) -> SubId
        ensures number { result ≡ self.now.number }
        ensures named { IsNamed N.gate N.lanes self.now }
    {
        self.seat.number
    }
}
