//! What the lock of a pool guards: its core with the account of who sleeps, and what a worker or a caller does to it in one holding of the
//! lock. And the history of the core: one log of its states, in proofs alone.
//!
//! ```
//! // A worker serves what its body asks, or looks for work.
//! match guarded.serve(alloc, &mut hand, ask, &mut unneeded) {
//!     // The body takes a turn outside the lock.
//!     Next::Turn(heard) => ..,
//!     // There is nothing to do.
//!     Next::Rest => ..,
//! }
//! ```
#![tactic(auto)]

mod guarded;
mod history;
mod next;

pub use fj_submitter::Naming;
pub use guarded::{Guarded, Room};
pub use history::{Front, Keeper, Log, LogOf, Moment};
pub use next::{Next, Unneeded};
