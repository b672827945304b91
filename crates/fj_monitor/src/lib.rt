//! A core under one lock, with condition variables: worker threads run bodies, and callers from outside ask for outcomes. It is proved of
//! any core that has the calls of `fj_calls`, beside the core that `fj_pool` puts there.
//!
//! ```
//! let outcome = pool.await_done(&rt, ticket)?;
//! pool.shutdown(&rt, &mut closer);
//! ```
#![tactic(auto)]

mod condvars;
mod pool;
mod turns;

pub use pool::{Opened, Pool};
