mod follow;
mod turns;

use crate::mark::Mark;
use crate::moment::Moment;
use crate::queues::QueueLengths;
use crate::stretch::Stretch;
use crate::task::TaskStory;
use crate::worker::WorkerStory;
use fj_rules::{Limits, Mode};
use std::alloc::{AllocError, Global};

/// Who ran what, and when. Contracts say nothing of it.
#[derive(Drop)]
pub struct Timeline {
    pub mode: Mode,
    pub limits: Limits,
    /// The newest event.
    pub now: Moment,
    /// The accepted tasks, by number.
    pub tasks: Vec<TaskStory>,
    /// What workers did, in the order in which it began.
    pub stretches: Vec<Stretch>,
    /// The workers, by number.
    pub workers: Vec<WorkerStory>,
    /// The moments of the whole pool, the oldest first.
    pub marks: Vec<Mark>,
    pub queues: QueueLengths,
    /// The body that ended last, by the moment, the task and the worker.
    just_ended: Option<(Moment, u64, usize)>,
    /// At whom a completion action ended last.
    last_worker: Option<usize>,
}

impl Timeline {
    /// Before the first event of a pool of this mode and these limits. An error only if out of memory.
    pub fn new(alloc: Global, mode: Mode, limits: Limits) -> Result<Timeline, AllocError> {
        let workers = limits.workers() as usize;
        let queues = QueueLengths::new(alloc, &limits)?;
        let workers = Vec::from_elem(alloc, WorkerStory::idle(), workers)?;
        Ok(Timeline {
            mode,
            limits,
            now: Moment::START,
            tasks: Vec::new(alloc),
            stretches: Vec::new(alloc),
            workers,
            marks: Vec::new(alloc),
            queues,
            just_ended: None,
            last_worker: None,
        })
    }
}
