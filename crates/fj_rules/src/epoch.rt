//! Runs with seals.
use crate::event::Event;
use crate::ids::Serial;
use crate::refusal::Refusal;
use crate::said::Said;
use crate::step::Step;

/// The most that the events of a history plus the seals before may be at a seal, so that task numbers fit into 64 bits. A seal above
/// it is refused.
pub const MAX_EVENTS_AND_SEALS: u64 = 4_611_686_018_427_387_904;

/// A request to a machine in a run with seals.
#[derive(Clone, Copy)]
pub enum Move {
    /// A step.
    Step(Step),
    /// Hand out the events since the last seal.
    Seal,
}

/// The answer of a machine in a run with seals.
#[derive(Clone, Copy)]
pub enum Answer {
    /// The reply to a step.
    Said(Said),
    /// The present part was handed out.
    Sealed,
    /// The seal was refused and changed nothing.
    Refused(Refusal),
}

/// A part of a history that was handed out.
#[derive(Drop)]
pub struct Sealed {
    /// The events of this part, the oldest first.
    pub events: Vec<Event>,
    /// The tasks that became gone in it, in that order.
    pub gone: Vec<Serial>,
}
