//! Runs with their histories.
use fj_body::{Body, Outcome};
use fj_calls::Archive;
use fj_machine::Machine;
use fj_parts::Record;
use fj_rules::Refusal;

/// A run of one body, with what is left of its pool.
#[derive(Drop)]
pub struct Recorded<B: Body> {
    /// The outcome, or why there is none: `LogFull` or `OutOfMemory`.
    pub answer: Result<Outcome<B>, Refusal>,
    /// What is left of the pool: its machine has the history of the run.
    pub record: Record<B>,
}

/// The value of a run, with its history.
#[derive(Drop)]
pub struct RecordedValue<V> {
    /// The value, or why there is none: `LogFull` or `OutOfMemory`.
    pub value: Result<V, Refusal>,
    /// The machine of the pool, with the history since the last seal.
    pub machine: Machine,
    /// The sealed parts of the history that were not handed out, the oldest first.
    pub archive: Archive,
}
