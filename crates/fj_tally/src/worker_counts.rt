use crate::numbered::numbered;
use crate::worker_tally::WorkerTally;
use fj_rules::WorkerId;
use std::alloc::{AllocError, Global};

/// What the workers did so far, and how many tasks each holds.
#[derive(Drop)]
pub struct WorkerCounts {
    tallies: Vec<WorkerTally>,
    held: Vec<usize>,
}

impl WorkerCounts {
    /// Before the first event.
    pub fn new(alloc: Global) -> WorkerCounts {
        WorkerCounts {
            tallies: Vec::new(alloc),
            held: Vec::new(alloc),
        }
    }

    /// What each of them did, by its number.
    pub fn into_tallies(self) -> Vec<WorkerTally> {
        self.tallies
    }

    /// This worker occurs.
    pub fn meet(&mut self, w: WorkerId) -> Result<(), AllocError> {
        let _tally = numbered(&mut self.tallies, w.0, WorkerTally::none())?;
        Ok(())
    }

    /// It took a task out of the queue of another one.
    pub fn steal(&mut self, w: WorkerId) -> Result<(), AllocError> {
        let tally = numbered(&mut self.tallies, w.0, WorkerTally::none())?;
        tally.stolen = tally.stolen.saturating_add(1);
        Ok(())
    }

    /// A task was handed to it to run.
    pub fn begin(&mut self, w: WorkerId) -> Result<(), AllocError> {
        let tally = numbered(&mut self.tallies, w.0, WorkerTally::none())?;
        let held = numbered(&mut self.held, w.0, 0)?;
        tally.begun = tally.begun.saturating_add(1);
        if *held > 0 {
            tally.nested = tally.nested.saturating_add(1);
        }
        *held = held.saturating_add(1);
        Ok(())
    }

    /// A body ended at it: one that began before the first event, where it holds none.
    pub fn end(&mut self, w: WorkerId) -> Result<(), AllocError> {
        self.meet(w)?;
        let held = numbered(&mut self.held, w.0, 0)?;
        *held = held.saturating_sub(1);
        Ok(())
    }
}
