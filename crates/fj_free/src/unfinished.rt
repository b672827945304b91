use fj_run::Refusal;
use thiserror::Error;

/// Why a job has no result.
#[derive(Clone, Copy, Debug, PartialEq, Error)]
pub enum Unfinished {
    /// The run was refused: `LogFull` where its history is full, `OutOfMemory` where an allocation fails or a thread cannot be started.
    #[error("{0}")]
    Refused(Refusal),
    /// The job failed with this code; `SPENT` where it has taken all its turns.
    #[error("failed with code {0}")]
    Failed(u32),
    /// The job was cancelled, or ended without a result.
    #[error("no result")]
    Missing,
}
