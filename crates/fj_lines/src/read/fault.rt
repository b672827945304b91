use thiserror::Error;

/// Not a valid line at this place of a script.
#[derive(Clone, Copy, Debug, PartialEq, Error)]
#[error("no line of a script")]
pub struct LineFault;
