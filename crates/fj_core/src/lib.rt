//! The core of a pool: the state that its lock guards, and what is done with it while the lock is held.
#![tactic(auto)]

mod due;
mod first_hands;
mod pool_core;

pub use fj_calls::{Archive, Booking, Bookings, Cutoff, Intake, Remains};
pub use pool_core::Core;
