use fj_gate::Ticket;
use fj_rules::{Serial, SubId};

/// A submission that was taken in: the ticket of its parcel, the number of its task, and its submitter. Java has no counterpart.
#[derive(Clone, Copy, Debug, PartialEq)]
pub struct Booking {
    /// The ticket of the parcel.
    pub ticket: Ticket,
    /// The number that the machine gave to the task.
    pub serial: Serial,
    /// The submitter from whose lane the parcel came.
    pub by: SubId,
}
