use fj_calls::Archive;
use fj_machine::Machine;
use fj_run::{Body, Record};

/// What is left of a pool of a service: its record, without bodies and results.
#[derive(Drop)]
pub struct PoolRecord {
    /// The machine, with its history since the last seal.
    pub machine: Machine,
    /// The sealed parts that were not taken.
    pub archive: Archive,
    /// Whether the pool has terminated.
    pub terminated: bool,
}

/// The same of a whole record.
pub fn of_record<B: Body>(record: Record<B>) -> PoolRecord {
    PoolRecord {
        machine: record.machine,
        archive: record.archive,
        terminated: record.terminated,
    }
}
