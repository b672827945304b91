use thiserror::Error;

/// Why no tree was read.
#[derive(Clone, Copy, Debug, PartialEq, Error)]
pub enum TreeFault {
    /// This line, counted from 1, is the first that may not be there in a tree, or that the input ends before its line feed; line 1 where
    /// the input is empty, line 4001 where the input goes on after 4,000 nodes.
    #[error("fault: line {0}")]
    Line(u64),
    /// An allocation failed.
    #[error("out of memory")]
    Memory,
    /// A read gave an error other than an interruption, or 2^64 - 1 reads found no end.
    #[error("read failed")]
    Read,
}
