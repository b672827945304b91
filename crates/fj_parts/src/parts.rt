ghost use Rattle.std.specs.Prelude.{◌≡◌, ◌≤◌, All, IfOk, IfErr, vec_len};
ghost use Rattle.fj_rules.specs.declared.limits.TheConstants.{MAX_SUBMITTERS};
ghost use Rattle.fj_lane.specs.declared.new_lane.TheConstants.{MAX_CAPACITY};
ghost use Rattle.fj_gate.specs.Ends.{new_entrant};
ghost use Rattle.fj_parts.specs.Parts.{AreNew, RefusesPool};
ghost use Rattle.fj_submitter.specs.Seats.{AreSeated};

use crate::holding::Holding;
use crate::tied::{Tied, tie_all};
use fj_agreement::End;
use fj_body::Body;
use fj_calls::{CoreMaking, CoreView};
use fj_fronts::Opened;
use fj_gate::gate;
use fj_guarded::Moment;
use fj_lane::MAX_CAPACITY;
use fj_rules::{Limits, Mode, OutOfMemory, Refusal, both};
use fj_submitter::{Seat, seat_all};
use std::alloc::Global;
use std::marker::Model;

/// All parts of a pool, before the caller picks a name for them. In Java that is part of one call, the constructor of `ForkJoinPool`.
#[derive(Drop)]
pub struct Parts<B: Body, C: CoreView<B>> {
    pub(crate) core: C,
    pub(crate) hands: Vec<Tied<B>>,
    pub(crate) ends: Vec<End<Holding>>,
    pub(crate) seats: Vec<Seat<B>>,
    pub(crate) closer: fj_gate::Closer,
    pub(crate) log: Opened<Moment<B>>,
}

impl<B: Body, C: CoreView<B>> Model for Parts<B, C> {
    ghost use Rattle.fj_parts.specs.Holdings.{HaveEnds, hands_of, pairs_of};
    ghost use Rattle.fj_submitter.specs.Lanes.{lanes_of};
    ghost use Rattle.fj_parts.specs.Parts.{ArePaired, PartsState};

    ghost Value = { PartsState B B.Key B.Out };

    ghost view = { λ p. record { core = C.state p.core; hands = hands_of p.hands.items; pairs = pairs_of p.hands.items; seats = p.seats.items; closer = p.closer; log = p.log } };

    ghost invariant = { λ p. record {
      paired : ArePaired p.closer (lanes_of (C.state p.core).lanes) p.seats.items;
      held : HaveEnds (C.state p.core).store.past p.hands.items p.ends.items;
    } };
}

impl<B: Body, C: CoreMaking<B> + Drop> Parts<B, C> {
    /// The parts of a new pool. Allocates all memory, except that for seals and that which is allocated as the pool is opened: for the lock, for
    /// the lists of hands and submitters, and for winding up.
    ///
    /// `lane_capacity` is the number of bodies that each submitter may submit over its life: `BadLimits` if it is not from 1 to 65,536.
    /// `OutOfMemory` if an allocation fails. `start` is the scan word of worker 0; that of each further worker is one more, modulo 2^32.
    pub fn new(
        alloc: Global,
        mode: Mode,
        limits: Limits,
        lane_capacity: u32,
        start: u32,
    ) -> Result<Parts<B, C>, Refusal>
        ensures ok { IfOk result (λ parts. AreNew mode limits lane_capacity start parts) }
        ensures err { IfErr result (λ refusal. RefusesPool lane_capacity refusal) }
    {
        if lane_capacity == 0 || lane_capacity > MAX_CAPACITY {
            return Err(Refusal::BadLimits);
        }
        match make(alloc, mode, limits, lane_capacity, start) {
            Ok(parts) => Ok(parts),
            Err(_) => Err(Refusal::OutOfMemory),
        }
    }
}

/// The same, within its range.
fn make<B: Body, C: CoreMaking<B> + Drop>(
    alloc: Global,
    mode: Mode,
    limits: Limits,
    lane_capacity: u32,
    start: u32,
) -> Result<Parts<B, C>, OutOfMemory>
    requires capacity { (1 ≤ lane_capacity) × (lane_capacity ≤ MAX_CAPACITY) }
    ensures { IfOk result (λ parts. AreNew mode limits lane_capacity start parts) }
{
    let (entrants, closer) = gate(alloc, limits.submitters(), lane_capacity)?;
    let (seats, drains) = seat_all(alloc, entrants, lane_capacity)?;
    let Ok((core, untied)) = C::new(alloc, mode, limits, lane_capacity, drains, start) else {
        drop(seats);
        return Err(OutOfMemory);
    };
    let Ok((tied, log)) = both(tie_all(alloc, untied), Opened::new(alloc)) else {
        // Explicit drops are proved faster.
        drop(core);
        drop(seats);
        return Err(OutOfMemory);
    };
    let (hands, ends) = tied;
    Ok(Parts {
        core,
        hands,
        ends,
        seats,
        closer,
        log,
    })
}
