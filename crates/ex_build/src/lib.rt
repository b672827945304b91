//! A build: each target is a completer that waits for its inputs; its completion action links its own objects and theirs.
//!
//! ```
//! let app = Target { source: Source::Compiles(100), inputs: &[1, 2] };   // target 0, of targets 1 and 2
//! let size = build(&rt, alloc, 4, &[app, net, core])?.size;              // by 4 workers
//! ```
#![tactic(auto)]

mod artifact;
mod building;
mod fault;
mod make;
mod target;

pub use artifact::Artifact;
pub use building::build;
pub use fault::Fault;
pub use make::Make;
pub use target::{Source, Target};
