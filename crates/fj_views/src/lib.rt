//! Views of a history as text: a table of its tasks, counts, the path that decided its end, a trace for Perfetto and Chrome, and the trees of
//! its completers.
//!
//! Each is written of a [`Story`]. Contracts see the text of the table.
//!
//! ```
//! let story = read_story(alloc, &mut input)?;
//! write_tasks(&story, &mut text)?;
//! ```
#![tactic(auto)]

mod chrome;
mod dot;
mod label;
mod path;
mod stats;
mod tasks;

pub use chrome::write_chrome;
pub use dot::write_dot;
pub use fj_story::{Moment, Story};
pub use path::write_path;
pub use stats::write_stats;
pub use tasks::write_tasks;
