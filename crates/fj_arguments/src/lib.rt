//! The arguments of the program `fj`: which command they ask for, and the values of its options.
//!
//! [`read`] parses them by `clap`. The help is here too. What a command does is in the crates above.
#![tactic(auto)]

mod arguments;
mod builders;
mod command_line;
mod commands;
mod given;
mod help;
mod jobs;
mod options;

pub use command_line::{Job, Subcommand, read};
pub use options::{FunctionOptions, RangeOptions, ViewName, ViewOptions, Workers};
