//! The history of a fork-join pool as text: a heading, and behind it a line for each event and for each seal.
//!
//! [`read_entry`] reads a line behind the heading, and an [`Entry`] is displayed as its line. Each knows exactly the canonical lines.
#![tactic(auto)]

mod entry;
mod heading;
mod read;
mod write;

pub use entry::Entry;
pub use heading::push_heading;
pub use read::{MAX_ENTRY, read_entry};
pub use write::push_entries;
