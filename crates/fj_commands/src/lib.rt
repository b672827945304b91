//! The commands of the program `fj` that need no pool: those that read a script or a history.
//!
//! Each is a function over any reader and writers, and answers the exit status: of a script [`run_replay`], [`run_upgrade`],
//! [`run_trace`], [`run_test`] and [`run_explain`], of a history [`run_check`] and [`run_view`]. By [`answered`], [`told`],
//! [`told_line`] and [`told_of_error`] other commands write their answers and errors.
#![tactic(auto)]

mod answer;
mod check_command;
mod explain_command;
mod notes_file;
mod replay_command;
mod script_end;
mod script_text;
mod test_command;
mod trace_command;
mod upgrade_command;
mod view;
mod view_command;

pub use answer::{answered, told, told_line};
pub use check_command::run_check;
pub use explain_command::run_explain;
pub use notes_file::told_of_error;
pub use replay_command::run_replay;
pub use test_command::run_test;
pub use trace_command::run_trace;
pub use upgrade_command::run_upgrade;
pub use view::{View, write_view};
pub use view_command::run_view;
