//! Divide-and-conquer jobs by worker threads: the halves of a job are forked and joined in a pool of its own.
//!
//! ```
//! let limits = Limits::new(4, 1, 4_096, 1_048_576)?; // workers, submitters, tasks, events
//! let job = RangeSum { range: BlockedRange::new(1, 100_000, 1_000) };
//! let sum = invoke(&rt, rt.alloc(), Mode::Joining, limits, 0, job, &Open)?; // 5_000_050_000
//! ```
#![tactic(auto)]

mod idle;
mod invocation;
mod lazily;

pub use fj_jobs::{
    BlockedRange, Divide, FirstHit, Interval, LinearMod, RangeMin, RangeSum, compute,
};
pub use fj_recursive::Recursive;
pub use fj_rules::{Limits, Mode, Refusal, Serial, WorkerId};
pub use fj_run::{Open, RecordedValue, Settings, Turnstile};
pub use invocation::{invoke, record_job};
pub use lazily::{invoke_lazily, invoke_lazily_observed};
