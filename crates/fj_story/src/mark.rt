use crate::moment::Moment;

/// What happened to the whole pool.
#[derive(Clone, Copy, Debug, PartialEq)]
pub enum What {
    /// Shutdown.
    Closed,
    /// Stop.
    Stopped,
    /// A part of the history was sealed.
    Sealed,
}

impl What {
    /// Its word in a picture.
    pub fn word(self) -> &'static str {
        match self {
            What::Closed => "shutdown",
            What::Stopped => "stop",
            What::Sealed => "seal",
        }
    }
}

/// A moment of the whole pool. A seal is at the event before it.
#[derive(Clone, Copy, Debug)]
pub struct Mark {
    pub at: Moment,
    pub what: What,
}
