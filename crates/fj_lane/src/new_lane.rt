ghost use Rattle.std.specs.Prelude.{◌≡◌, ◌≤◌, IfOk};
ghost use Rattle.fj_lane.specs.Ends.{new_feed, new_drain};

use crate::drain::Drain;
use crate::feed::Feed;
use crate::misses::Misses;
use crate::parcel::Parcel;
use crate::rule::{Ends, LaneRule, View};
use crossbeam_deque::Worker;
use fj_rules::OutOfMemory;
use std::alloc::Global;

/// The most parcels that may be pushed into one lane.
pub const MAX_CAPACITY: u32 = 65_536;

/// An empty lane, as its two ends: nothing was pushed and nothing taken. Java has no counterpart.
///
/// `OutOfMemory` if an allocation fails, and no other error. No other call of this crate runs out of memory.
///
/// Precondition: `capacity`, the number of parcels that may be pushed in all, is from 1 to [`MAX_CAPACITY`].
pub fn lane<B: Drop>(alloc: Global, capacity: u32) -> Result<(Feed<B>, Drain<B>), OutOfMemory>
    requires capacity { (1 ≤ capacity) × (capacity ≤ MAX_CAPACITY) }
    ensures most { MAX_CAPACITY ≡ 65_536 }
    ensures feed { IfOk result (λ r. r.0 ≡ new_feed r.1.lane capacity) }
    ensures drain { IfOk result (λ r. r.1 ≡ new_drain r.1.lane capacity) }
{
    let mut worker = Worker::<Parcel<B>, Global, View<B>, LaneRule>::fifo_as(
        alloc,
        capacity as usize,
    )?;
    let stealer = worker.stealer()?;
    let pass = worker.another::<Ends>();
    let feed = Feed {
        worker,
        capacity,
        pushed: 0,
    };
    let drain = Drain {
        stealer,
        pass,
        misses: Misses::zero(),
        capacity,
        taken: 0,
    };
    Ok((feed, drain))
}
