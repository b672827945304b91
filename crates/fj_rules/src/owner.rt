use crate::ids::{SubId, WorkerId};

/// Whose queue: each submitter and each worker has one.
#[derive(Clone, Copy, Debug, PartialEq)]
pub enum Owner {
    /// The queue of this submitter: what it submits.
    Sub(SubId),
    /// The queue of this worker: what its running tasks fork.
    Work(WorkerId),
}
