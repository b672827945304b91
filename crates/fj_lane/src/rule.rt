//! What each end of a lane knows, the steps at the deque between them, and the invariant that both steps keep.
//!
//! | Step | What the deque holds before | and after | What the end learns |
//! |---|---|---|---|
//! | push | the parcels fed and not drained | the same, followed by the new one | it has fed one more |
//! | take | a parcel, and others behind it | the others | it has drained that one, the next of those fed |
//! | | nothing, or the steal answered Retry | the same | nothing: it counts a miss |
use crate::parcel::Parcel;
use crossbeam_deque::protocol::{Join, Lesson, Outcome, Protocol, Split};
use std::collections::LinkedList;

/// What one end knows. It exists in proofs alone: no value of it is made.
pub struct View<B> {
    /// Whether it may push. One end at most may.
    pub feeds: bool,
    /// Whether it may take. One end at most may.
    pub drains: bool,
    /// The parcels that it pushed, in order.
    pub fed: LinkedList<Parcel<B>>,
    /// The parcels that it took, in order.
    pub drained: LinkedList<Parcel<B>>,
}

/// The invariant of a lane: the deque holds what was fed, except its beginning, which was drained.
pub struct LaneRule;

impl<B> Protocol<Parcel<B>, View<B>> for LaneRule {
    ghost use Rattle.std.specs.Prelude.{true, false, []};
    ghost use Rattle.fj_lane.specs.Rule.{view_of, IsLane};

    ghost holds = { IsLane };

    ghost first = { view_of true true [] [] };

    ghost guest = { view_of false false [] [] };
}

/// The right to take is split off for the drain, or joined again.
pub struct Ends;

impl<B> Split<View<B>> for Ends {
    ghost use Rattle.std.specs.Prelude.{true, false, []};
    ghost use Rattle.fj_lane.specs.Rule.{view_of};

    ghost left = { λ v. view_of true false v.fed [] };

    ghost right = { λ v. view_of false true [] v.drained };
}

impl<B> Join<View<B>> for Ends {
    ghost use Rattle.std.specs.Prelude.{true, false, []};
    ghost use Rattle.fj_lane.specs.Rule.{view_of};

    ghost both = { λ v w. view_of true true v.fed w.drained };

    ghost spent = { view_of false false [] [] };
}

/// A push.
pub struct Push;

impl<B> Outcome<Parcel<B>, View<B>> for Push {
    ghost use Rattle.std.specs.Prelude.{◌≡◌};
    ghost use Rattle.fj_lane.specs.Rule.{fed_more};

    ghost then = { λ v xs w. w ≡ fed_more xs v };
}

/// A take.
pub struct Take;

impl<B> Outcome<Parcel<B>, View<B>> for Take {
    ghost use Rattle.std.specs.Prelude.{◌≡◌};
    ghost use Rattle.fj_lane.specs.Rule.{drained_more};

    ghost then = { λ v xs w. w ≡ drained_more xs v };
}

/// A take by the holder of both ends: it takes the next of those fed and not drained, and finds none only if all were drained.
pub struct TakeLeft;

impl<B> Outcome<Parcel<B>, View<B>> for TakeLeft {
    ghost use Rattle.std.specs.Prelude.{◌≡◌, ◌++◌, []};
    ghost use Rattle.fj_lane.specs.Rule.{drained_more, undrained};

    ghost then = { λ v xs w. (w ≡ drained_more xs v) × (undrained v ≡ xs ++ undrained w) };

    ghost empty = { λ v. undrained v ≡ [] };
}

/// What the holder of both ends concludes: nothing was lost, and nothing was added.
pub struct Tally;

impl<B> Lesson<Parcel<B>, View<B>> for Tally {
    ghost use Rattle.std.specs.Prelude.{◌≡◌, ◌++◌};
    ghost use Rattle.fj_lane.specs.Rule.{undrained};

    ghost fact = { λ v items. v.fed ≡ v.drained ++ undrained v };
}
