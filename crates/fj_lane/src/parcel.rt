use fj_gate::Ticket;

/// A body, with the ticket under which it was admitted. Java has no counterpart.
#[derive(Drop)]
pub struct Parcel<B> {
    /// The number of its admission, drawn at the gate.
    pub ticket: Ticket,
    /// What was submitted. The lane never looks into it.
    pub body: B,
}

/// As many parcels were pushed as the capacity of the lane. It stays so: a take makes no room.
///
/// To a submitter this is refusal 11, `LaneSpent` of `fj_rules::Refusal`. Java has no such limit.
#[derive(Clone, Copy, Debug, PartialEq)]
pub struct LaneSpent;
