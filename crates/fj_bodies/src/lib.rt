//! A machine with the bodies that no worker holds and the results that were not taken. Each action of a pool is one step, which also moves
//! the body.
#![tactic(auto)]

mod due;
mod hooked;
mod keep;
mod moves;
mod places;
mod plain;
mod release;
mod store;
mod tries;

pub use fj_body::{Ask, Body, Heard, KeptResult, Open, Outcome, Told, Turnstile, told_outcome};
pub use store::Store;
