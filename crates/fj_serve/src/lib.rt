//! An endless service: bodies come from a producer, pools run them, one after another, and their outcomes go to a consumer.
//!
//! ```
//! // 4 workers, at most 1,000 bodies under way, outcomes in the order in which the bodies came.
//! let settings = Settings::workers(4)?;
//! let served = serve(&rt, alloc, settings, Window::in_order(1_000), producer, consumer, &Open)?;
//! ```
#![tactic(auto)]

mod consumer;
mod feeding;
mod numbered;
mod pool_record;
mod producer;
mod reported;
mod serving;
mod under_way;
mod window;

pub use consumer::Consumer;
pub use fj_run::{Body, Limits, Open, Outcome, Record, Refusal, Sealed, Settings, Turnstile};
pub use pool_record::PoolRecord;
pub use producer::Producer;
pub use reported::Reported;
pub use serving::{Served, Unserved, serve};
pub use window::Window;
