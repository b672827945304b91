//! A log that only grows, in proofs alone. A lock guards its keeper, and each thread has a front: a beginning of the log that it has seen.
//!
//! ```
//! // A lock guards the keeper, which knows the whole log. A thread has the front. Both share the log.
//! let (log, mut keeper) = opened.named::<N>();
//! let mut front = keeper.front(&log);
//! // With the lock: the log has one more entry, and the front knows all of it.
//! guard.keeper.append(&log, &entry);
//! front.learn(&log, &mut guard.keeper);
//! ```
//!
//! Contracts see a [`Keeper`] as the log, a list of entries, and a [`Front`] as a beginning of it. So what a front knows stays true,
//! whatever other threads do: the log goes on from there.
//!
//! No entry is made or moved: a call makes one to three loads of a word that never changes, and writes nothing. No call waits or fails.
#![tactic(auto)]

mod chosen;
mod entry;
mod front;
mod keeper;
mod log;
mod naming;
mod opened;
mod word;

pub use entry::{Entry, Tells};
pub use front::Front;
pub use keeper::Keeper;
pub use log::Log;
pub use naming::Naming;
pub use opened::Opened;
