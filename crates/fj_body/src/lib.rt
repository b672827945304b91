//! What bodies hear and ask, how tasks end, and what each ask does to a store, in definitions.
#![tactic(auto)]

mod bare_ending;
mod body;
mod kept_result;
mod outcomes;
mod turnstile;

pub use bare_ending::{BareEnding, as_ending};
pub use body::{Ask, Body, Heard, Told};
pub use kept_result::KeptResult;
pub use outcomes::{Outcome, told_outcome};
pub use turnstile::{Open, Turnstile};
