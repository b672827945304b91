use crate::numbered::numbered;
use fj_rules::Owner;
use std::alloc::{AllocError, Global};

/// How many tasks are in each queue.
#[derive(Drop)]
pub struct QueueCounts {
    of_submitters: Vec<usize>,
    of_workers: Vec<usize>,
    /// The most tasks that were in one of them at once.
    pub longest: usize,
}

impl QueueCounts {
    /// Before the first event.
    pub fn new(alloc: Global) -> QueueCounts {
        QueueCounts {
            of_submitters: Vec::new(alloc),
            of_workers: Vec::new(alloc),
            longest: 0,
        }
    }

    /// A task was accepted into this queue.
    pub fn push(&mut self, owner: Owner) -> Result<(), AllocError> {
        let length = self.length(owner)?;
        *length = length.saturating_add(1);
        let length = *length;
        self.longest = self.longest.max(length);
        Ok(())
    }

    /// A task was taken out of this queue.
    pub fn pop(&mut self, owner: Owner) -> Result<(), AllocError> {
        let length = self.length(owner)?;
        *length = length.saturating_sub(1);
        Ok(())
    }

    /// How many are in it.
    fn length(&mut self, owner: Owner) -> Result<&mut usize, AllocError> {
        match owner {
            Owner::Sub(s) => numbered(&mut self.of_submitters, s.0, 0),
            Owner::Work(w) => numbered(&mut self.of_workers, w.0, 0),
        }
    }
}
