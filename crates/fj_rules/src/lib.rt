//! The rules of a fork-join pool: its tasks, events, steps, replies, refusals and limits.
//!
//! A history is a list of [`Event`]s. All that can be asked about a pool, such as what is in a queue or the status of a task,
//! is a definition over its history, in `specs/`; the laws that hold for every history are in `proofs/`.
#![tactic(auto)]

mod epoch;
mod event;
mod ids;
mod inner_types;
mod kind;
mod limits;
mod memory;
mod mode;
mod owner;
mod place;
mod refusal;
mod said;
mod status;
mod step;

pub use epoch::{Answer, MAX_EVENTS_AND_SEALS, Move, Sealed};
pub use event::{Event, How};
pub use ids::{Serial, SubId, WorkerId};
pub use inner_types::InnerTypes;
pub use kind::{Kind, SubmittedKind};
pub use limits::{Limits, MAX_EVENTS, MAX_PENDING, MAX_SUBMITTERS, MAX_TASKS, MAX_WORKERS};
pub use memory::{OutOfMemory, both};
pub use mode::Mode;
pub use owner::Owner;
pub use place::Place;
pub use refusal::Refusal;
pub use said::Said;
pub use status::Status;
pub use step::{Ending, Step};
