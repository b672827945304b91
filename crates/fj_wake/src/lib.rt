//! The core of a pool with the account of who sleeps: each call marks those whose wait it has ended, so that no wake-up is lost.
//!
//! ```
//! let told = core.act(&mut hand, ask);
//! core.take_due(&mut due);
//! // The lock is let go, and then those are notified.
//! ```
#![tactic(auto)]

mod news;
mod waits;
mod waking_core;

pub use fj_calls::ToWake;
pub use waits::Waits;
pub use waking_core::WakingCore;
