use std::fmt;

/// The number of an event, from 1: the time of every view. 0 is before the first one.
#[derive(Clone, Copy, Debug, PartialEq, Eq, PartialOrd, Ord)]
pub struct Moment(pub u64);

impl Moment {
    /// Before the first event.
    pub const START: Moment = Moment(0);

    /// The next one.
    pub fn next(self) -> Moment {
        Moment(self.0.saturating_add(1))
    }

    /// How many events there are from the earlier one to this.
    pub fn since(self, earlier: Moment) -> u64 {
        self.0.saturating_sub(earlier.0)
    }
}

impl fmt::Display for Moment {
    fn fmt<W: fmt::Write>(&self, f: &mut fmt::Formatter<W>) -> fmt::Result {
        write!(f, "{}", self.0)
    }
}
