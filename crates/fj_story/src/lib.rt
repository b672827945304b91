//! The story of a history: what its events say of each task and each worker, and when.
//!
//! [`read_story`] reads a history from any reader and checks it, and whatever shows the history reads the [`Story`]. Time is the number of an
//! event, from 1: a [`Moment`].
//!
//! ```
//! let story = read_story(alloc, &mut input)?;
//! let steals = story.steals();
//! ```
#![tactic(auto)]

mod looking;
mod mark;
mod moment;
mod queues;
mod ratio;
mod reading;
mod row;
mod story;
mod stretch;
mod table;
mod task;
mod timeline;
mod worker;

pub use fj_check::CheckFault;
pub use fj_notes::{Milestone, Notes, NotesFault, read_notes};
pub use mark::{Mark, What};
pub use moment::Moment;
pub use queues::Most;
pub use ratio::share;
pub use reading::read_story;
pub use row::{TaskMoments, TaskRow};
pub use story::Story;
pub use stretch::{Ended, Stretch, Turn, Work};
pub use task::{Fired, Fork, Taken, TaskStory};
pub use worker::WorkerStory;
