use crate::ids::WorkerId;
use crate::owner::Owner;

/// Where an accepted task is. It is in exactly one place.
#[derive(Clone, Copy, Debug, PartialEq)]
pub enum Place {
    /// In this owner's queue.
    Queued(Owner),
    /// On this worker's stack: its body has begun and has not ended.
    Held(WorkerId),
    /// A completer whose body has ended, or that was made as a trigger, and that is not spent.
    Open,
    /// Every other accepted task: in no queue, on no stack, and waiting for no arrival.
    Gone,
}
