use thiserror::Error;

/// Why a history was not written whole.
#[derive(Clone, Copy, Debug, PartialEq, Error)]
pub enum WriteFault {
    /// Out of memory.
    #[error("out of memory")]
    Memory,
    /// A write failed other than by an interruption, or took nothing, or 2^64 - 1 writes were interrupted.
    #[error("write failed")]
    Write,
}
