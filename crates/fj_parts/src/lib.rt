//! The parts of a pool, and what its lock guards. Nobody waits here.
//!
//! ```
//! // The core under a name, with its log, and the handles: hands, submitters and the closer.
//! let parts = Parts::new(alloc, mode, limits, lane_capacity, start)?;
//! let Named { locked, log, hands, submitters, closer } = parts.named::<N>(alloc)?;
//! ```
#![tactic(auto)]

mod glance;
mod hand;
mod history;
mod holding;
mod locked;
mod named;
mod parts;
mod record;
mod still;
mod tied;
mod turns;

pub use fj_submitter::{Closer, Submitter};
pub use glance::Glance;
pub use hand::Hand;
pub use history::History;
pub use locked::{Locked, Waking};
pub use named::Named;
pub use parts::Parts;
pub use record::Record;
pub use still::Still;
