//! The records of the tasks that are kept, and what arrivals, climbs, relays and releases do to them.
//!
//! Contracts see a [`Tree`] as its records by key, the number of makes so far, and the room. A [`Handle`] names a record; it is
//! good while the record at its key has its number. All memory is allocated in [`Tree::new`].
//!
//! ```
//! let trigger = tree.make(kind, Place::Open)?;
//! if tree.arrive(trigger) == Arrived::Fire {
//!     // the completion action of the trigger runs now
//! }
//! ```
#![tactic(auto)]

mod arrive;
mod handle;
mod hints;
mod kept;
mod lookup;
mod pass;
mod probes;
mod record;
mod tree;

pub use arrive::Arrived;
pub use handle::Handle;
pub use kept::Kept;
pub use lookup::search;
pub use pass::{PassEnd, PassHow};
pub use probes::Probes;
pub use record::Record;
pub use tree::Tree;
