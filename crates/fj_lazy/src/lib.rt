//! A divide-and-conquer job as a body that splits lazily: it computes leaf after leaf in its turn, and forks its largest half that nobody
//! has begun only where a worker asks for work.
//!
//! ```
//! let signals = Signals::new(1_000);
//! let body = Lazy::new(alloc, job, &signals)?; // to be submitted as a plain task
//! signals.ask(WorkerId(1)); // worker 1 has nothing to do
//! ```
#![tactic(auto)]

mod descent;
mod lazy;
mod part;
mod parts_aside;
mod signals;
mod span;

pub use lazy::Lazy;
pub use signals::Signals;
