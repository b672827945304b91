//! Divide-and-conquer jobs: a job splits in two until it is a leaf, and its value is combined from the values of its halves.
//!
//! A job is a type with [`Divide`]. [`RangeSum`], [`RangeMin`] and [`FirstHit`] go over a [`BlockedRange`], and [`compute`] gives the
//! value of any job on one thread:
//!
//! ```
//! let range = BlockedRange::new(1, 100_000, 1000);
//! let sum = compute(RangeSum { range });
//! ```
#![tactic(auto)]

mod blocked_range;
mod divide;
mod first_hit;
mod interval;
mod linear_mod;
mod range_min;
mod range_query;
mod range_sum;

pub use blocked_range::BlockedRange;
pub use divide::{Divide, compute};
pub use first_hit::FirstHit;
pub use interval::Interval;
pub use linear_mod::LinearMod;
pub use range_min::RangeMin;
pub use range_query::{Query, QueryValue, RangeQuery};
pub use range_sum::RangeSum;
