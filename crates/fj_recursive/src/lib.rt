//! A job as a body that forks the left half at every split, and joins what it forked.
//!
//! ```
//! let key = job.key();
//! let body = Recursive::new(alloc, job)?;
//! let value = Recursive::value_in(run_alone(&rt, alloc, settings, body, &Open), key)?;
//! ```
#![tactic(auto)]

mod lefts;
mod recursive;
mod recursive_stage;

pub use recursive::Recursive;
