use std::alloc::AllocError;
use thiserror::Error;

/// Why a script was not run to its end.
#[derive(Clone, Copy, Debug, PartialEq, Error)]
pub enum TestFault {
    /// The line with this number, counted from 1, is faulty, has a reply and no step, or is missing.
    #[error("fault: line {0}")]
    Line(u64),
    /// The heading has a limit out of its range.
    #[error("refused 13")]
    Limits,
    /// Out of memory.
    #[error("out of memory")]
    Memory,
}

impl From<AllocError> for TestFault {
    fn from(_: AllocError) -> TestFault {
        TestFault::Memory
    }
}
