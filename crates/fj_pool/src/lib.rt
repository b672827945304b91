//! A pool of worker threads that run bodies: submitters submit them without a lock, workers run them, and each submission has one
//! outcome.
//!
//! ```
//! match submitter.submit(body) {
//!     // The ticket is for the outcome.
//!     Ok(ticket) => pool.await_done(&rt, ticket),
//!     // The lane is spent, or the pool is shut down. The caller gets the body back.
//!     Err((refusal, body)) => ..,
//! }
//! ```
#![tactic(auto)]

mod types;

pub use fj_body::{Ask, Body, Heard, KeptResult, Open, Outcome, Told, Turnstile};
pub use fj_calls::{Archive, Booking, Bookings, Intake};
pub use fj_core::Core;
pub use fj_gate::{Closing, Ticket};
pub use fj_guarded::{Front, Naming};
pub use fj_lane::{Parcel, Rest};
pub use fj_machine::Machine;
pub use fj_parts::{Closer, Glance, Hand, History, Record, Submitter};
pub use fj_rules::{Kind, Limits, Mode, Refusal, Sealed, Serial, SubId, WorkerId};
pub use fj_slots::SerialMap;
pub use types::{Opened, Parts, Pool, Still};
