use crate::queue_counts::QueueCounts;
use crate::tasks::Tasks;
use crate::worker_counts::WorkerCounts;
use crate::worker_tally::WorkerTally;
use fj_rules::{Event, Owner, Serial, WorkerId};
use std::alloc::{AllocError, Global};

/// The state after the events so far: tasks, queues and workers.
#[derive(Drop)]
pub struct Progress {
    pub tasks: Tasks,
    pub queues: QueueCounts,
    workers: WorkerCounts,
}

impl Progress {
    /// Before the first event.
    pub fn new(alloc: Global) -> Progress {
        Progress {
            tasks: Tasks::new(alloc),
            queues: QueueCounts::new(alloc),
            workers: WorkerCounts::new(alloc),
        }
    }

    /// What each worker did, by its number.
    pub fn into_workers(self) -> Vec<WorkerTally> {
        self.workers.into_tallies()
    }

    /// Follows one more event. An error only if out of memory.
    pub fn follow(&mut self, event: &Event) -> Result<(), AllocError> {
        match event {
            Event::Acc(t, owner, _) => self.accept(*t, owner),
            Event::Make(t, _) => self.tasks.accept(*t, None),
            Event::Out(t, w) => {
                self.take(*t, *w)?;
                self.workers.begin(*w)
            }
            Event::Skip(t, w) => self.take(*t, *w),
            Event::End(_, w) => self.workers.end(*w),
            Event::Rel(t) => {
                self.tasks.release(*t);
                Ok(())
            }
            _ => Ok(()),
        }
    }

    /// The task was accepted into this queue.
    fn accept(&mut self, t: Serial, owner: &Owner) -> Result<(), AllocError> {
        self.tasks.accept(t, Some(*owner))?;
        self.queues.push(*owner)?;
        match owner {
            Owner::Sub(_) => Ok(()),
            Owner::Work(w) => self.workers.meet(*w),
        }
    }

    /// The worker took the task.
    fn take(&mut self, t: Serial, w: WorkerId) -> Result<(), AllocError> {
        self.workers.meet(w)?;
        match self.tasks.take(t) {
            Some(owner) => self.take_from(&owner, w),
            None => Ok(()),
        }
    }

    /// The worker took a task out of this queue.
    fn take_from(&mut self, owner: &Owner, w: WorkerId) -> Result<(), AllocError> {
        self.queues.pop(*owner)?;
        match owner {
            Owner::Work(v) if v.0 != w.0 => self.workers.steal(w),
            _ => Ok(()),
        }
    }
}
