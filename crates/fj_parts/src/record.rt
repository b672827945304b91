ghost use Rattle.std.specs.Prelude.{◌≡◌, ◌≤◌, [], All, IfNone, IfSome, length, map, reverse, vec_len, vec_capacity};
ghost use Rattle.fj_slots.specs.Shelves.{entries};
ghost use Rattle.fj_submitter.specs.Lanes.{lanes_of};
ghost use Rattle.fj_submitter.specs.Seats.{AreAll, HaveMet, IsSeat};
ghost use Rattle.fj_parts.specs.Winding.{IsLeft, IsTaken};

use fj_body::{Body, KeptResult, Outcome, told_outcome};
use fj_calls::{Archive, Bookings};
use fj_gate::Ticket;
use fj_lane::Rest;
use fj_machine::Machine;
use fj_slots::SerialMap;

/// What is left of a pool. Java has no counterpart.
#[derive(Drop)]
pub struct Record<B: Body> {
    /// The machine, with the history since the last seal.
    pub machine: Machine,
    /// The results that were not taken, each under its task's number.
    pub results: SerialMap<KeptResult<B>>,
    /// What was taken in, in order.
    pub bookings: Bookings,
    /// The sealed parts of the history that were not handed out, the oldest first.
    pub archive: Archive,
    /// What each lane still holds, by the number of its submitter.
    pub lanes: Vec<Rest<B>>,
    /// How many submissions were admitted.
    pub admitted: u64,
    /// The number at which the gate was closed, if it was.
    pub closed: Option<u64>,
    /// Whether it had terminated: it was shut down or stopped, exactly the closing number of submissions was taken in, and all is quiet.
    pub terminated: bool,
}

impl<B: Body> Record<B> {
    /// The outcome of the submission under a ticket, if its task has ended and was not released: the one that `await_done` returned, or would
    /// have, also if the pool got stuck. Only the first call gets a result.
    pub fn take_outcome(&mut self, ticket: Ticket) -> Option<Outcome<B>>
        ensures outcome { IfSome result (λ outcome. IsLeft self.old.machine.events self.old.bookings.bookings (entries self.old.results) ticket outcome) }
        // Nothing but the result of that task is taken out of the record.
        ensures stays { self.new ≡ record self.old { results = self.new.results } }
        ensures taken { IfSome result (λ _. IsTaken self.old.bookings.bookings ticket (entries self.old.results) (entries self.new.results)) }
        ensures none { IfNone result (self.new ≡ self.old) }
    {
        let t = self.bookings.find(ticket)?;
        match self.machine.status(t) {
            Some(status) if !status.is_undone() => {
                let kept = self.results.take(t);
                Some(told_outcome(status, kept))
            }
            _ => None,
        }
    }
}
