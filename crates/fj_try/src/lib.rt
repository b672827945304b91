//! Divide-and-conquer jobs that may fail: a leaf and a combination get an allocator, and return a `Result`.
//!
//! ```
//! let sorted = try_invoke(&rt, alloc, Settings::available(&rt), Sort { numbers })?;
//! ```
#![tactic(auto)]

mod fault;
mod invocation;
mod tried;
mod try_divide;
mod trying;

pub use fault::Fault;
pub use fj_invoke::{Refusal, Settings};
pub use invocation::{try_compute, try_invoke};
pub use tried::Tried;
pub use try_divide::TryDivide;
pub use trying::Trying;
