ghost use Rattle.std.specs.Prelude.{◌≡◌, IfOk, IfErr};
ghost use Rattle.fj_lane.specs.Ends.{new_feed};
ghost use Rattle.fj_gate.specs.Ends.{new_entrant};
ghost use Rattle.fj_submitter.specs.Seats.{IsSeat, RefusesSubmission, Submits, new_seat};

use fj_gate::{Entrant, Ticket};
use fj_lane::{Feed, Parcel};
use fj_rules::{Refusal, SubId};
use std::marker::Model;

/// A submitter's ends of the gate and of its lane, with its number.
#[derive(Drop)]
pub struct Seat<B> {
    pub(crate) number: SubId,
    pub(crate) entrant: Entrant,
    pub(crate) feed: Feed<B>,
}

impl<B> Model for Seat<B> {
    ghost use Rattle.fj_submitter.specs.Seats.{IsSeat, SeatState};

    ghost Value = { SeatState B };

    ghost view = { λ s. record { number = s.number; entrant = s.entrant; feed = s.feed } };

    ghost invariant = { λ s. IsSeat (record { number = s.number; entrant = s.entrant; feed = s.feed }) };
}

impl<B> Seat<B> {
    /// Unused ends. Preconditions: they are new, and have this capacity.
    pub fn new(number: SubId, entrant: Entrant, feed: Feed<B>, capacity: u32) -> Seat<B>
        requires entrant { entrant ≡ new_entrant entrant.gate capacity }
        requires feed { feed ≡ new_feed feed.lane capacity }
        ensures { result ≡ new_seat entrant.gate capacity number feed.lane }
    {
        Seat {
            number,
            entrant,
            feed,
        }
    }

    /// Draws a ticket, and pushes the body with it. Checks first for room in the lane (`LaneSpent`), then the gate (`Closed`).
    pub fn submit(&mut self, body: B) -> Result<Ticket, (Refusal, B)>
        ensures ok { IfOk result (λ ticket. Submits self.old ticket body self.new) }
        ensures refused { IfErr result (λ e. RefusesSubmission self.old e.0 self.new) }
        ensures body { IfErr result (λ e. e.1 ≡ body) }
        ensures tickets { IsSeat self.new }
    {
        if !self.feed.has_room() {
            return Err((Refusal::LaneSpent, body));
        }
        match self.entrant.admit() {
            Err(_) => Err((Refusal::Closed, body)),
            Ok(ticket) => match self.feed.push(Parcel { ticket, body }) {
                Ok(()) => Ok(ticket),
                Err(_) => unreachable!(),
            },
        }
    }
}
