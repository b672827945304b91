//! Counts over a history: how many tasks were submitted, forked, run, stolen and released, per worker where a worker did it, and how many
//! were live at once.
//!
//! ```
//! let tally = Tally::of(alloc, &part.events)?;
//! println!(rt; "{} begun, {} at once", tally.begun, tally.most_live)?;
//! ```
#![tactic(auto)]

mod counts;
mod numbered;
mod progress;
mod queue_counts;
mod tally;
mod tasks;
mod worker_counts;
mod worker_tally;

pub use tally::Tally;
pub use worker_tally::WorkerTally;
