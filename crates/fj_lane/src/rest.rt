ghost use Rattle.std.specs.Prelude.{◌≡◌, ◌≤◌, [], ◌∷◌, ◌++◌, length, MatchOption};

use crate::drain::Drain;
use crate::feed::Feed;
use crate::parcel::Parcel;
use crate::rule::{Ends, LaneRule, TakeLeft, Tally, View};
use crossbeam_deque::Worker;
use std::alloc::Global;
use std::marker::Model;

/// What was pushed into a lane and not taken: at most [`MAX_CAPACITY`](crate::MAX_CAPACITY) parcels. Java has no counterpart.
#[derive(Drop)]
pub struct Rest<B> {
    pub(crate) worker: Worker<Parcel<B>, Global, View<B>, LaneRule>,
}

impl<B> Model for Rest<B> {
    ghost use Rattle.std.specs.Prelude.{◌≡◌, true, List};
    ghost use Rattle.crossbeam_deque.specs.Handles.{worker_view, worker_flavor};
    ghost use Rattle.fj_lane.specs.declared.parcel.Parcel.{Parcel};
    ghost use Rattle.fj_lane.specs.Rule.{undrained};

    ghost Value = { List (Parcel B) };

    ghost view = { λ r. undrained (worker_view r.worker) };

    ghost invariant = { λ r. record {
      may_feed : (worker_view r.worker).feeds ≡ true;
      may_drain : (worker_view r.worker).drains ≡ true;
      oldest_first : worker_flavor r.worker ≡ 0;
    } };
}

/// Takes both ends of a lane back. It never blocks or fails. Java has no counterpart.
///
/// What the drain took, followed by what is left, is what the feed pushed, which is at most its capacity.
///
/// Precondition: they are ends of one lane.
pub fn meet<B: Drop>(feed: Feed<B>, drain: Drain<B>) -> Rest<B>
    requires { feed.lane ≡ drain.lane }
    ensures all { drain.drained ++ result ≡ feed.fed }
    ensures within { length feed.fed ≤ feed.capacity }
{
    let Feed {
        mut worker,
        capacity: _,
        pushed: _,
    } = feed;
    let Drain {
        stealer: _,
        pass,
        misses: _,
        capacity: _,
        taken: _,
    } = drain;
    worker.absorb::<Ends>(pass);
    // For the proof: the deque holds exactly what was pushed and not taken.
    worker.len_as::<Tally>();
    Rest { worker }
}

impl<B> Rest<B> {
    /// Takes the oldest parcel that is left. `None` exactly if none is left; then nothing has changed.
    pub fn next(&mut self) -> Option<Parcel<B>>
        ensures { MatchOption result ((self.old ≡ []) × (self.new ≡ [])) (λ p. self.old ≡ p ∷ self.new) }
    {
        self.worker.pop_as::<TakeLeft>()
    }
}
