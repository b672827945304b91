ghost use Rattle.std.specs.Prelude.{◌≤◌, length};
ghost use Rattle.fj_lane.specs.Ends.{Takes};

use crate::misses::Misses;
use crate::parcel::Parcel;
use crate::rule::{LaneRule, Take, View};
use crossbeam_deque::{Pass, Steal, Stealer};
use std::alloc::Global;
use std::marker::Model;

/// The end of a lane that takes. There is one. Java has no counterpart.
#[derive(Drop)]
pub struct Drain<B> {
    pub(crate) stealer: Stealer<Parcel<B>, Global, View<B>, LaneRule>,
    /// The right to take, with what was taken. It has no bytes.
    pub(crate) pass: Pass<Parcel<B>, View<B>>,
    pub(crate) misses: Misses,
    /// How many parcels may be pushed into the lane, and so taken out of it, in all.
    pub(crate) capacity: u32,
    /// How many it has taken.
    pub(crate) taken: u32,
}

impl<B> Model for Drain<B> {
    ghost use Rattle.std.specs.Prelude.{◌≡◌, ◌≤◌, true, length};
    ghost use Rattle.crossbeam_deque.specs.Handles.{stealer_deque, stealer_flavor, view as pass_view, IsPassOf};
    ghost use Rattle.fj_lane.specs.declared.new_lane.TheConstants.{MAX_CAPACITY};
    ghost use Rattle.fj_lane.specs.Ends.{DrainState};

    ghost Value = { DrainState B };

    ghost view = { λ d. record { lane = stealer_deque d.stealer; drained = (pass_view d.pass).drained; missed = d.misses.number; capacity = d.capacity } };

    ghost invariant = { λ d. record {
      paired : IsPassOf (stealer_deque d.stealer) d.pass;
      may_drain : (pass_view d.pass).drains ≡ true;
      oldest_first : stealer_flavor d.stealer ≡ 0;
      counted : d.taken ≡ length (pass_view d.pass).drained;
      within : d.taken ≤ d.capacity;
      most : d.capacity ≤ MAX_CAPACITY;
    } };
}

impl<B> Drain<B> {
    /// Takes the oldest parcel out of the lane, by one steal of the deque; by none once all that may be pushed was taken. It never blocks, and
    /// never runs out of memory.
    ///
    /// Of the parcels pushed it is the next after those taken so far, as is known once the ends meet. `None` only if the lane was empty at
    /// some moment of the call, or the steal answered `Retry`: the deque promises that, and it is tested, but no clause here says it. Then
    /// the count of misses has grown by one, and nothing else has changed. In all it returns at most as many parcels as the lane's capacity.
    pub fn take(&mut self) -> Option<Parcel<B>>
        ensures within { length self.new.drained ≤ self.new.capacity }
        ensures taken { Takes self.old result self.new }
    {
        // All that may be pushed was taken: the lane stays empty.
        if self.taken == self.capacity {
            self.misses = self.misses.next();
            return None;
        }
        match self.stealer.steal_as::<Take>(&mut self.pass) {
            Steal::Success(parcel) => {
                self.taken += 1;
                Some(parcel)
            }
            Steal::Empty | Steal::Retry => {
                self.misses = self.misses.next();
                None
            }
        }
    }
}
