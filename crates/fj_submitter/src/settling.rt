ghost use Rattle.std.specs.Prelude.{◌≡◌, ◌≤◌, [], All, length, map, reverse, vec_len, vec_capacity};
ghost use Rattle.fj_submitter.specs.Lanes.{lanes_of};
ghost use Rattle.fj_submitter.specs.Seats.{AreAll, HaveMet, IsSeat};

use crate::naming::Naming;
use crate::seat::Seat;
use crate::submitter::Submitter;
use fj_gate::Entrant;
use fj_lane::{Drain, Rest, meet};

/// Joins the ends of each lane to its rest, and collects the entrants, the last first.
pub fn settle<B: Drop, N: Naming>(
    mut submitters: Vec<Submitter<B, N>>,
    mut drains: Vec<Drain<B>>,
    mut entrants: Vec<Entrant>,
    mut rests: Vec<Rest<B>>,
) -> (Vec<Entrant>, Vec<Rest<B>>)
    requires all { AreAll (length N.lanes) submitters.items }
    requires lanes { lanes_of drains.items ≡ N.lanes }
    requires empty { (entrants.items ≡ []) × (rests.items ≡ []) }
    requires room { (vec_len submitters ≤ vec_capacity entrants) × (vec_len submitters ≤ vec_capacity rests) }
    ensures entrants { result.0.items ≡ reverse (map (λ s. s.entrant) submitters.items) }
    ensures gates { All (λ e. e.gate ≡ N.gate) result.0.items }
    ensures seats { All (λ s. IsSeat s) submitters.items }
    ensures rests { HaveMet drains.items submitters.items result.1.items }
{
    while let Some(submitter) = submitters.pop() {
        let Some(drain) = drains.pop() else {
            unreachable!();
        };
        let Seat {
            number: _,
            entrant,
            feed,
        } = submitter.seat;
        entrants.push_reserved(entrant);
        rests.push_reserved(meet(feed, drain));
    }
    rests.reverse();
    (entrants, rests)
}
