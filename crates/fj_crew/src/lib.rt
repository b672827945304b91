//! A thread for each worker of a crew, while the thread of the caller does something else. None outlives the call.
//!
//! ```
//! let shared = Shared { crew: &crew, rt: &rt };
//! let out = run_all(alloc, &shared, hands, caller);
//! ```
#![tactic(auto)]

mod crew;
mod threads;

pub use crew::{Caller, Crew};
pub use threads::{Shared, run_all};
