ghost use Rattle.std.specs.Prelude.{◌≡◌, ◌+◌, ◌<◌, ◌≤◌, ◌↔◌, length, IsTrue, IfOk, IfErr};
ghost use Rattle.fj_lane.specs.Ends.{Pushes};

use crate::parcel::{LaneSpent, Parcel};
use crate::rule::{LaneRule, Push, View};
use crossbeam_deque::Worker;
use std::alloc::Global;
use std::marker::Model;

/// The end of a lane that pushes. There is one. Java has no counterpart of it, nor of its capacity, from 1 to
/// [`MAX_CAPACITY`](crate::MAX_CAPACITY).
#[derive(Drop)]
pub struct Feed<B> {
    pub(crate) worker: Worker<Parcel<B>, Global, View<B>, LaneRule>,
    /// How many parcels it may push.
    pub(crate) capacity: u32,
    /// How many it has pushed.
    pub(crate) pushed: u32,
}

impl<B> Model for Feed<B> {
    ghost use Rattle.std.specs.Prelude.{◌≡◌, ◌≤◌, true, length};
    ghost use Rattle.crossbeam_deque.specs.Handles.{worker_deque, worker_view, worker_flavor, worker_index, worker_capacity};
    ghost use Rattle.fj_lane.specs.declared.new_lane.TheConstants.{MAX_CAPACITY};
    ghost use Rattle.fj_lane.specs.Ends.{FeedState};

    ghost Value = { FeedState B };

    ghost view = { λ f. record { lane = worker_deque f.worker; fed = (worker_view f.worker).fed; capacity = f.capacity } };

    ghost invariant = { λ f. record {
      may_feed : (worker_view f.worker).feeds ≡ true;
      oldest_first : worker_flavor f.worker ≡ 0;
      counted : f.pushed ≡ length (worker_view f.worker).fed;
      placed : worker_index f.worker ≡ f.pushed;
      within : f.pushed ≤ f.capacity;
      most : f.capacity ≤ MAX_CAPACITY;
      room : f.capacity ≤ worker_capacity f.worker;
    } };
}

impl<B> Feed<B> {
    /// Whether the next push succeeds. Exactly so while fewer parcels than its capacity were pushed.
    pub fn has_room(&self) -> bool
        ensures room { IsTrue result ↔ (length self.now.fed < self.now.capacity) }
        ensures within { length self.now.fed ≤ self.now.capacity }
    {
        self.pushed < self.capacity
    }

    /// How many more parcels it accepts.
    pub fn left(&self) -> u32
        ensures { length self.now.fed + result ≡ self.now.capacity }
    {
        self.capacity - self.pushed
    }

    /// Pushes a parcel behind those that were pushed before. It never blocks, and never runs out of memory.
    ///
    /// The first `capacity` pushes succeed. Every later one returns `LaneSpent` with its parcel, and changes nothing. The capacity counts
    /// pushes over the lane's life, so a take makes no room.
    pub fn push(&mut self, parcel: Parcel<B>) -> Result<(), (LaneSpent, Parcel<B>)>
        ensures pushed { IfOk result (λ _. Pushes self.old parcel self.new) }
        ensures spent { IfErr result (λ e. (length self.old.fed ≡ self.old.capacity) × (e.1 ≡ parcel) × (self.new ≡ self.old)) }
    {
        if self.pushed == self.capacity {
            return Err((LaneSpent, parcel));
        }
        match self.worker.push_as::<Push>(parcel) {
            Ok(()) => {
                self.pushed += 1;
                Ok(())
            }
            // The deque has `capacity` slots, and pushes of a lane never reuse one.
            Err(_) => unreachable!(),
        }
    }
}
