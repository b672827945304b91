//! Scripts of a fork-join pool over any reader and writer.
//!
//! [`replay`] reads a script from any reader, makes its steps on a `Machine` and writes the replies: its output is `text` of the
//! bytes that it read, or a prefix of it where memory or the writer failed. `text` is a definition of `specs/Scripts.antt`. If the
//! first line is `fj 2`, tasks have names, otherwise numbers: only `TaskNaming` knows the difference. [`upgrade`] writes a
//! script of version 1 as version 2, and the replies to it stay the same but for the names. Over a `Watched` reader and writer
//! contracts also see that a failure to read or write is reported exactly where one came.
#![tactic(auto)]

mod asked;
mod fault;
mod named_step;
mod names;
mod opening;
mod player;
mod pushes;
mod replay_script;
mod replied;
mod responder;
mod rewriter;
mod script_run;
mod script_stage;
mod script_stop;
mod task_naming;
mod task_told;
mod title;
mod upgrade_script;

pub use asked::Asked;
pub use fault::ReplayFault;
pub use names::Names;
pub use player::Player;
pub use replay_script::{replay, replayed};
pub use replied::Replied;
pub use script_run::replay_fault;
pub use script_stop::ScriptStop;
pub use task_naming::TaskNaming;
pub use title::is_title;
pub use upgrade_script::{upgrade, upgraded};
