//! What is agreed on about a worker's hand.
use fj_agreement::{Known, Tells};
use fj_rules::Serial;
use fj_slots::Hand;
use std::collections::LinkedList;

/// What a worker holds: the numbers of its bodies, the oldest first, and that of its hook. It exists in proofs alone.
pub struct Holding {
    /// The numbers of the bodies.
    pub stack: LinkedList<Serial>,
    /// The number of the hook.
    pub hook: Option<Serial>,
}

impl Known for Holding {
    ghost use Rattle.fj_parts.specs.Holdings.{nothing};

    ghost first = { nothing };
}

impl<B> Tells<Holding> for Hand<B> {
    ghost use Rattle.fj_parts.specs.Holdings.{holding_of};

    ghost told = { holding_of };
}
