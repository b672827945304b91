//! The command line of the program `fj`.
//!
//! [`fj`] runs a command over any reader and writers. The crate also exports what the commands use: of `fj_replay` [`replay`],
//! [`upgrade`], both of a script in memory, and [`ReplayFault`]; of `fj_streams` readers and writers whose contracts count calls;
//! of `fj_invoke` divide-and-conquer jobs, with [`compute`], [`invoke`] and [`invoke_lazily`]; of `fj_fold` trees, with
//! [`read_tree`] and [`fold_tree`].
#![tactic(auto)]

mod job_commands;
mod notes_file;
mod program;
mod record_command;
mod refused;
mod tree_command;

pub use fj_check::{CheckFault, check};
pub use fj_expect::{Mismatch, TestFault, test};
pub use fj_explain::{ExplainFault, Flaw, LimitFlaw, explain};
pub use fj_fold::{Family, NamedTree, Node, Nodes, TreeFault, TreeFold, fold_tree, read_tree};
pub use fj_invoke::{
    BlockedRange, Divide, FirstHit, Interval, Limits, LinearMod, Mode, Open, RangeMin, RangeSum,
    Recursive, Refusal, Serial, Settings, Turnstile, WorkerId, compute, invoke, invoke_lazily,
};
pub use fj_record::trace;
pub use fj_replay::{ReplayFault, replay, replayed, upgrade, upgraded};
pub use fj_streams::{Sink, Source, Watched};
pub use program::{fj, without_words};
