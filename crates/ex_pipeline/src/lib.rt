//! An event pipeline: the word of a sensor goes through four stages, each a completer forked by the one before it, and the last one gives
//! the level of an alarm.
//!
//! ```
//! let level = process(&rt, alloc, 4, 10 << 12 | 1_200)?; // by 4 workers
//! ```
#![tactic(auto)]

mod fault;
mod flow;
mod item;
mod processing;
mod stage;

pub use fault::Fault;
pub use flow::Flow;
pub use item::Item;
pub use processing::process;
pub use stage::Stage;
