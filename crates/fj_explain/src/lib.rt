//! Scripts with their replies, and the reason of each reply that says that nothing was done.
//!
//! ```
//! let script = "async 1 1 8 64\nsubmit 0\npoll 0 0\njoin 0 0 0\n";
//! explain(alloc, script, &mut text)?;
//! assert_eq!(text, "async 1 1 8 64\nsubmit 0 > task 0\npoll 0 0 > run 0\njoin 0 0 0 > refused 7\n  \
//!     # refused 7: task 0 is on worker 0's own stack: it would wait for itself\n");
//! ```
#![tactic(auto)]

mod explainer;
mod facts;
mod fault;
mod flaw;
mod heading;
mod reason;
mod script;
mod tasks;

pub use fault::ExplainFault;
pub use flaw::Flaw;
pub use heading::LimitFlaw;
pub use script::explain;
