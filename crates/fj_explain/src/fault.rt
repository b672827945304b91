use crate::flaw::Flaw;
use crate::heading::LimitFlaw;
use std::alloc::AllocError;
use std::fmt;
use thiserror::Error;

/// Why a script was not explained to its end.
#[derive(Clone, Copy, Debug, PartialEq, Error)]
pub enum ExplainFault {
    /// The line with this number, counted from 1, may not stand there, and why.
    #[error("fault: line {0}: {1}")]
    Line(u64, Flaw),
    /// The heading has this limit out of its range.
    #[error("refused 13: {0}")]
    Limits(LimitFlaw),
    /// Out of memory.
    #[error("out of memory")]
    Memory,
    /// The writer failed.
    #[error("write failed")]
    Write,
}

impl From<AllocError> for ExplainFault {
    fn from(_: AllocError) -> ExplainFault {
        ExplainFault::Memory
    }
}

impl From<fmt::Error> for ExplainFault {
    fn from(_: fmt::Error) -> ExplainFault {
        ExplainFault::Write
    }
}
