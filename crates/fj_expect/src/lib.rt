//! Scripts as people write them: with comments, blank lines, words in columns, and behind a line the reply that is expected.
//!
//! ```
//! let script = "async 1 1 8 64\nsubmit 0 > task 0  # the first\n";
//! assert_eq!(test(alloc, script)?, None);
//! ```
#![tactic(auto)]

mod annotated;
mod fault;
mod mismatch;
mod test_script;

pub use fault::TestFault;
pub use mismatch::Mismatch;
pub use test_script::test;
