//! The result in the outcome of a body, or in the answer of a run.
//!
//! ```
//! // None under this key: the refusal says why.
//! let value = result_under(answer, &key)?;
//! ```
#![tactic(auto)]

mod results;

pub use results::{NoResult, result_in, result_under};
