/// What one worker did.
#[derive(Clone, Copy, Debug, Drop, PartialEq)]
pub struct WorkerTally {
    /// Tasks handed to it to run.
    pub begun: usize,
    /// Tasks that it took, to be run or skipped, from the queue of another worker.
    pub stolen: usize,
    /// Tasks handed to it to run while it held another one: within a join or a help of that one.
    pub nested: usize,
}

impl WorkerTally {
    /// It has done nothing yet.
    pub(crate) fn none() -> WorkerTally {
        WorkerTally {
            begun: 0,
            stolen: 0,
            nested: 0,
        }
    }
}
