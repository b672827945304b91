ghost use Rattle.std.specs.Prelude.{◌≡◌, ◌≤◌, ◌++◌, [], All, IfOk, vec_len};
ghost use Rattle.fj_rules.specs.Epochs.{IsPast};
ghost use Rattle.fj_lane.specs.declared.new_lane.TheConstants.{MAX_CAPACITY};
ghost use Rattle.fj_slots.specs.Shelves.{entries};
ghost use Rattle.fj_body.specs.Stores.{HasResults};
ghost use Rattle.fj_calls.specs.Booked.{AreBooked};
ghost use Rattle.fj_calls.specs.Cores.{AreParts, IsNew, first_hands};

use crate::calls::view::CoreView;
use crate::remains::Remains;
use fj_body::Body;
use fj_lane::Drain;
use fj_rules::{Limits, Mode, OutOfMemory};
use fj_slots::Hand;
use std::alloc::Global;

/// How a core is made, and what is left of it.
pub trait CoreMaking<B: Body>: CoreView<B> {
    /// A core in which nothing has happened and nobody sleeps, and an empty hand for each worker. Allocates all memory except that of seals.
    /// `OutOfMemory` if an allocation fails.
    ///
    /// Preconditions: one drain for each submitter, each of a lane of this capacity, at most `MAX_CAPACITY`, from which nothing was taken.
    fn new(
        alloc: Global,
        mode: Mode,
        limits: Limits,
        lane_capacity: u32,
        drains: Vec<Drain<B>>,
        start: u32,
    ) -> Result<(Self, Vec<Hand<B>>), OutOfMemory>
        requires lanes { vec_len drains ≡ limits.submitters }
        requires capacity { lane_capacity ≤ MAX_CAPACITY }
        requires capacities { All (λ d. d.capacity ≡ lane_capacity) drains.items }
        requires untouched { All (λ d. d.drained ≡ []) drains.items }
        ensures core { IfOk result (λ r. IsNew mode limits drains.items (Self.state r.0)) }
        ensures hands { IfOk result (λ r. r.1.items ≡ first_hands limits.workers start) };

    /// Takes the core apart. It allocates nothing, and drops the bodies that no worker holds.
    fn into_remains(self) -> Remains<B>
        ensures past { result.machine ≡ (Self.state self).store.past }
        ensures results { entries result.results ≡ entries (Self.state self).store.results }
        // No result was lost.
        ensures complete { HasResults (Self.state self).store.past (entries (Self.state self).store.results) (Self.state self).store.taken }
        ensures drains { result.drains.items ≡ (Self.state self).lanes }
        ensures bookings { result.bookings.bookings ≡ (Self.state self).bookings }
        ensures handed { result.archive.handed ≡ (Self.state self).handed }
        ensures parts { result.archive.kept ≡ (Self.state self).parts }
        ensures run { IsPast (Self.state self).store.past }
        ensures booked { AreBooked (Self.state self).store.past (Self.state self).lanes (Self.state self).bookings }
        ensures history { AreParts ((Self.state self).handed ++ (Self.state self).parts) (Self.state self).store.past };
}
