//! Submissions without a lock: the handles of those who submit to a pool, and of who shuts it down.
//!
//! ```
//! // Each submitter of a pool has one; any thread may have it.
//! let ticket = submitter.submit(body)?;
//! // No submission is admitted from now on.
//! let closing = closer.close();
//! ```
#![tactic(auto)]

mod closer;
mod naming;
mod seat;
mod seats;
mod settling;
mod submitter;
mod submitters;

pub use closer::Closer;
pub use naming::Naming;
pub use seat::Seat;
pub use seats::{name_all, seat_all};
pub use settling::settle;
pub use submitter::Submitter;
pub use submitters::Submitters;
