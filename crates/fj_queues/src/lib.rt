//! Double-ended queues of task numbers, one for each owner; stacks of them; and those of the open tasks.
//!
//! Contracts see [`Queues`] and [`Stacks`] as a list of lists, oldest numbers first, and the room that was asked for, [`OpenTasks`] as one
//! list. All memory is allocated in `new`. A thief takes the oldest number of the first queue that has one:
//!
//! ```
//! if let Some(o) = queues.first_from(r) {
//!     let stolen = queues.take_old(o);
//! }
//! ```
#![tactic(auto)]

mod cells;
mod ends;
mod numbers;
mod open;
mod queues;
mod stacks;
mod stamps;
mod window;

pub use numbers::Numbers;
pub use open::OpenTasks;
pub use queues::Queues;
pub use stacks::Stacks;
