//! The scheduler of a fork-join pool as a state machine, with its history.
//!
//! Contracts see a [`Machine`] as its mode and limits and its history: its queues and stacks, the status of each task and the reply to
//! a step are definitions over the history, in `fj_rules`. [`Machine::seal`] hands out the events so far, and the machine goes on.
//! Inside is a `Ledger` of `fj_ledger`, each update of which is one event. A step first checks its refusals, then that its events fit,
//! and then makes its updates. Nothing here blocks or starts a thread.
#![tactic(auto)]

mod epochs;
mod machine;
mod runs;
mod steps;

pub use epochs::{make_moves, run_epochs};
pub use machine::Machine;
pub use runs::{make_steps, run};
