//! The history of a fork-join pool, with the state after it.
//!
//! Contracts see a [`Ledger`] as the mode and limits of its pool and its history. An update appends one event. Its precondition is that
//! the event may follow the history and fits into it, as `fj_rules` defines. A query answers by the history: what is in a queue, on a
//! stack or in a hand, and the record of each kept task. The steps are above, in `fj_machine`.
#![tactic(auto)]

mod ledger;
mod log;
mod queue_end;

pub use ledger::{Hook, Ledger};
pub use queue_end::QueueEnd;
