use crate::archive::Archive;
use crate::bookings::Bookings;
use fj_body::{Body, KeptResult};
use fj_lane::Drain;
use fj_machine::Machine;
use fj_slots::SerialMap;

/// What is left of a core that is taken apart. Java has no counterpart.
#[derive(Drop)]
pub struct Remains<B: Body> {
    /// The machine, with the history since the last seal.
    pub machine: Machine,
    /// The results that were not taken, each under its task's number.
    pub results: SerialMap<KeptResult<B>>,
    /// The drain of each submitter.
    pub drains: Vec<Drain<B>>,
    /// What was taken in.
    pub bookings: Bookings,
    /// The sealed parts of the history that were not handed out.
    pub archive: Archive,
}
