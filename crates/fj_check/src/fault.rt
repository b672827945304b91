use fj_checker::Objection;
use thiserror::Error;

/// Why an input is not a history, or was not read to its end.
#[derive(Clone, Copy, Debug, Error)]
pub enum CheckFault {
    /// This line, counted from 1, is that of an event which does not follow those before it, or of a seal that may not stand there. All
    /// lines before it may stand where they do.
    #[error("line {0}: {1}")]
    Objection(u64, Objection),
    /// This line, counted from 1, is not the heading or the entry that is due there, or the input ends before its line feed. All lines
    /// before it may stand where they do.
    #[error("fault: line {0}")]
    Line(u64),
    /// A limit of the heading is out of its range.
    #[error("refused 13")]
    Limits,
    /// Out of memory, or there are more events than 64 bits count.
    #[error("out of memory")]
    Memory,
    /// A read failed other than by an interruption; or the input did not end in 2^64 - 1 reads, or in as many lines as 64 bits count.
    #[error("read failed")]
    Read,
}
