use thiserror::Error;

/// Why a replay or an upgrade failed. For an upgrade, read "written" for "replied to".
#[derive(Clone, Copy, Debug, PartialEq, Error)]
pub enum ReplayFault {
    /// This line, counted from 1, is not the heading or step that is due there, or the input ends before its line feed. All lines before
    /// it were replied to.
    #[error("fault: line {0}")]
    Line(u64),
    /// A limit of the heading is out of its range. Nothing was written.
    #[error("refused 13")]
    Limits,
    /// Out of memory, before the first reply, or in version 2 at a line that gives a task a new name, or seals. All lines before it were
    /// replied to.
    #[error("out of memory")]
    Memory,
    /// A read failed other than by an interruption; or the input did not end in 2^64 - 1 reads, or in as many lines as 64 bits count.
    /// All whole lines were replied to.
    #[error("read failed")]
    Read,
    /// A write or a flush failed other than by an interruption, or a write took nothing, or 2^64 - 1 were interrupted. The first
    /// replies may be written.
    #[error("write failed")]
    Write,
}
