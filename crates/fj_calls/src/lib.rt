//! What a core keeps beside its store, what its calls answer, and the calls: traits, so that crates over a core are proved beside it.
#![tactic(auto)]

mod archive;
mod booking;
mod bookings;
mod calls;
mod cutoff;
mod remains;
mod taken_in;
mod to_wake;

pub use archive::Archive;
pub use booking::Booking;
pub use bookings::Bookings;
pub use calls::{
    CoreClosing, CoreLanes, CoreMaking, CoreOutside, CoreParts, CoreQueries, CoreSeats, CoreSleep,
    CoreView, CoreWaking, CoreWorkers,
};
pub use cutoff::Cutoff;
pub use remains::Remains;
pub use taken_in::Intake;
pub use to_wake::{ToWake, place_of};
