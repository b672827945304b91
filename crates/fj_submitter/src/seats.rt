ghost use Rattle.std.specs.Prelude.{◌≡◌, ◌≤◌, All, IfOk, vec_len};
ghost use Rattle.fj_rules.specs.declared.limits.TheConstants.{MAX_SUBMITTERS};
ghost use Rattle.fj_gate.specs.Ends.{new_entrant};
ghost use Rattle.fj_lane.specs.declared.new_lane.TheConstants.{MAX_CAPACITY};
ghost use Rattle.fj_submitter.specs.Seats.{AreSeated, IsNamed};

use crate::naming::Naming;
use crate::seat::Seat;
use crate::submitter::Submitter;
use fj_gate::Entrant;
use fj_lane::{Drain, lane};
use fj_rules::{OutOfMemory, SubId};
use std::alloc::{AllocError, Global};
use std::marker::PhantomData;

/// A numbered lane for each entrant. Preconditions: the capacity is in range, the entrants are new, and at most `MAX_SUBMITTERS`.
pub fn seat_all<B: Drop>(
    alloc: Global,
    entrants: Vec<Entrant>,
    lane_capacity: u32,
) -> Result<(Vec<Seat<B>>, Vec<Drain<B>>), OutOfMemory>
    requires capacity { (1 ≤ lane_capacity) × (lane_capacity ≤ MAX_CAPACITY) }
    requires new { All (λ e. e ≡ new_entrant e.gate lane_capacity) entrants.items }
    requires few { vec_len entrants ≤ MAX_SUBMITTERS }
    ensures { IfOk result (λ r. AreSeated lane_capacity entrants.items r.0.items r.1.items) }
{
    let mut seats = Vec::with_capacity(alloc, entrants.len())?;
    let mut drains = Vec::with_capacity(alloc, entrants.len())?;
    let mut number = 0u32;
    for entrant in entrants {
        let (feed, drain) = lane(alloc, lane_capacity)?;
        seats.push(Seat::new(SubId(number), entrant, feed, lane_capacity))?;
        drains.push(drain)?;
        number += 1;
    }
    Ok((seats, drains))
}

/// The submitters, under the name. Precondition: the name is that of these ends.
pub fn name_all<B: Drop, N: Naming>(
    alloc: Global,
    seats: Vec<Seat<B>>,
) -> Result<Vec<Submitter<B, N>>, AllocError>
    requires { All (λ s. IsNamed N.gate N.lanes s) seats.items }
    ensures { IfOk result (λ v. v.items ≡ seats.items) }
{
    let mut submitters = Vec::with_capacity(alloc, seats.len())?;
    for seat in seats {
        submitters.push(Submitter {
            seat,
            of: PhantomData,
        })?;
    }
    Ok(submitters)
}
