//! Parallel loops over data: something is done with each block of a range, a slice is reduced, a first item is found.
//!
//! ```
//! let sum = map_reduce(&rt, alloc, Settings::available(&rt), items, &Sum)?;
//! let first = find_first(&rt, alloc, Settings::available(&rt), items, &Above { limit: 100 })?;
//! ```
#![tactic(auto)]

mod block;
mod each;
mod every;
mod find;
mod finding;
mod items;
mod looping;
mod pace;
mod part;
mod reduce;
mod reducing;
mod search;
mod wanted;

pub use each::Each;
pub use finding::find_first;
pub use fj_invoke::{Refusal, Settings};
pub use fj_try::Fault;
pub use looping::for_each;
pub use reduce::Reduce;
pub use reducing::map_reduce;
pub use wanted::Wanted;
