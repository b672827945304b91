//! Bodies of which nothing is promised, so that nothing has to be proved of them.
//!
//! ```
//! let sum = run_free(&rt, alloc, Settings::workers(4)?, Fib::new(40))?;
//! ```
#![tactic(auto)]

mod free;
mod running;
mod turns;
mod unfinished;

pub use fj_run::{
    Ask, Body, Heard, Kind, Limits, Mode, Naming, Open, Outcome, Play, Played, Record, Refusal,
    Running, Serial, Settings, SubId, Ticket, Turnstile, WorkerId, run_alone, with_pool,
};
pub use free::{Free, SPENT};
pub use running::{out_of, run_free};
/// Runs two closures on two threads, neither of which outlives the call. What their own contracts say of their results is known of the
/// pair. It makes no pool: rayon's `join` without one.
pub use std::thread::join;
pub use turns::Turns;
pub use unfinished::Unfinished;
