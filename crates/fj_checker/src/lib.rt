//! Whether a history may go on with an event: by the rules alone, whatever pool wrote it.
//!
//! A [`Checker`] keeps what has happened so far. [`Checker::may_follow`] answers Ok exactly where the event follows, and else the first
//! fact that is missing, which displays as a sentence; [`Checker::append`] goes on by it.
#![tactic(auto)]

mod checker;
mod going;
mod known;
mod objection;
mod rules;

pub use checker::Checker;
pub use objection::Objection;
