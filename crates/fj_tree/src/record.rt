ghost use Rattle.std.specs.Prelude.{◌≡◌, ◌≤◌};
ghost use Rattle.fj_tree.specs.Arrivals.{is_spent, arrival_at, arrived};
ghost use Rattle.fj_tree.specs.Records.{with_place};
ghost use Rattle.fj_rules.specs.declared.place.Place.TheVariants.{Open};

use crate::arrive::Arrived;
use fj_rules::{Kind, Place, Serial, Status};

/// The record of a kept task.
#[derive(Clone, Copy, Debug)]
pub struct Record {
    /// The task's number.
    pub serial: Serial,
    /// What the task is. It never changes.
    pub kind: Kind,
    /// Where the task is.
    pub place: Place,
    /// How far the task has come.
    pub status: Status,
    /// How many arrivals a completer still waits for, at most `MAX_PENDING`. A plain task has 0.
    pub pending: u32,
    /// Whether the completer was fired, or passed by a climb. A done one is spent too, fired or not.
    pub fired: bool,
    /// How many kept tasks name this one as their parent.
    pub children: u64,
}

impl Record {
    /// Whether the completer is spent, so that nothing can fire it: it was fired, was passed, or is done.
    pub fn is_spent(&self) -> bool
        ensures { result ≡ is_spent self.now }
    {
        self.fired || !self.status.is_undone()
    }

    /// What an arrival at this record would do.
    pub fn arrival(&self) -> Arrived
        ensures { result ≡ arrival_at self.now }
    {
        if self.is_spent() {
            Arrived::Spent
        } else if self.pending > 0 {
            Arrived::Counted
        } else if matches!(self.place, Place::Queued(_) | Place::Held(_)) {
            Arrived::Early
        } else {
            Arrived::Fire
        }
    }

    /// What an arrival at this record would do once its body has ended: its place is ignored.
    pub(crate) fn own_arrival(&self) -> Arrived
        ensures { result ≡ arrival_at (with_place Open self.now) }
    {
        match self.arrival() {
            Arrived::Early => Arrived::Fire,
            other => other,
        }
    }

    /// Arrives at this record: the count falls, or the record becomes spent, or nothing changes.
    pub(crate) fn arrive(&mut self) -> Arrived
        ensures answer { result ≡ arrival_at self.old }
        ensures arrived { self.new ≡ arrived result self.old }
    {
        let arrived = self.arrival();
        match arrived {
            Arrived::Counted => self.pending -= 1,
            Arrived::Fire => self.fired = true,
            Arrived::Spent | Arrived::Early => {}
        }
        arrived
    }
}
