use crate::moment::Moment;
use fj_rules::{Limits, Owner};
use std::alloc::{AllocError, Global};

/// The most tasks that waited at once, and after which event it was so first.
#[derive(Clone, Copy, Debug)]
pub struct Most {
    pub tasks: u64,
    pub at: Moment,
}

impl Most {
    /// None so far.
    pub(crate) fn none() -> Most {
        Most {
            tasks: 0,
            at: Moment::START,
        }
    }

    /// So many wait now.
    fn count(&mut self, tasks: u64, at: Moment) {
        if tasks > self.tasks {
            self.tasks = tasks;
            self.at = at;
        }
    }
}

/// How many tasks are in each queue.
#[derive(Drop)]
pub struct QueueLengths {
    limits: Limits,
    /// By the numbers that the limits give to queues.
    lengths: Vec<u64>,
    together: u64,
    /// The most that waited in one queue.
    pub longest: Most,
    /// The most that waited in all queues together.
    pub most: Most,
}

impl QueueLengths {
    /// All queues are empty. An error only if out of memory.
    pub fn new(alloc: Global, limits: &Limits) -> Result<QueueLengths, AllocError> {
        let queues = limits.submitters() as usize + limits.workers() as usize;
        Ok(QueueLengths {
            limits: *limits,
            lengths: Vec::from_elem(alloc, 0, queues)?,
            together: 0,
            longest: Most::none(),
            most: Most::none(),
        })
    }

    /// The length of this queue, if it is one of the pool's.
    fn length(&mut self, owner: &Owner) -> Option<&mut u64> {
        let queue = self.limits.find_queue(*owner)?;
        self.lengths.get_mut(queue)
    }

    /// A task was accepted into this queue.
    pub fn push(&mut self, owner: &Owner, at: Moment) {
        self.together = self.together.saturating_add(1);
        self.most.count(self.together, at);
        let mut length = 0;
        if let Some(place) = self.length(owner) {
            *place = place.saturating_add(1);
            length = *place;
        }
        self.longest.count(length, at);
    }

    /// A task left this queue.
    pub fn pop(&mut self, owner: &Owner) {
        self.together = self.together.saturating_sub(1);
        if let Some(place) = self.length(owner) {
            *place = place.saturating_sub(1);
        }
    }
}
