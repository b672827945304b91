//! A lane: a bounded single-producer single-consumer FIFO queue of parcels, by atomics only. Neither end ever waits for the other.
//!
//! A contract sees a [`Feed`] as the parcels that it pushed and its capacity, a [`Drain`] as the parcels that it took and how many
//! takes gave none. When both [`meet()`], what was taken, followed by what is left, is what was pushed, as values. Only [`lane()`]
//! can run out of memory.
//!
//! The lane is this project's own, instead of the submission queues of Java's `ForkJoinPool`: what one submitter submits is taken in
//! first in, first out.
//!
//! ```
//! match feed.push(Parcel { ticket, body }) {
//!     Ok(()) => None,
//!     // As many were pushed as the capacity. The caller gets the body back.
//!     Err((LaneSpent, parcel)) => Some(parcel.body),
//! }
//! ```
#![tactic(auto)]

mod drain;
mod feed;
mod misses;
mod new_lane;
mod parcel;
mod rest;
mod rule;

pub use drain::Drain;
pub use feed::Feed;
pub use misses::Misses;
pub use new_lane::{MAX_CAPACITY, lane};
pub use parcel::{LaneSpent, Parcel};
pub use rest::{Rest, meet};
