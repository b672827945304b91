//! Runs one body to its outcome, by worker threads, in a pool of its own; or lends a pool to a player for one call.
//!
//! ```
//! let outcome = run_alone(&rt, alloc, Settings::workers(4)?, body, &Open)?;
//! ```
#![tactic(auto)]

mod alone;
mod crew;
mod play;
mod playing;
mod recorded;
mod running;
mod settings;
mod types;
mod unused;

pub use alone::{record_alone, run_alone};
pub use fj_body::{Ask, Body, Heard, KeptResult, Open, Outcome, Turnstile};
pub use fj_calls::Archive;
pub use fj_gate::Ticket;
pub use fj_guarded::Naming;
pub use fj_machine::Machine;
pub use fj_parts::{Glance, Record};
pub use fj_results::{NoResult, result_in, result_under};
pub use fj_rules::{Kind, Limits, Mode, Refusal, Sealed, Serial, SubId, WorkerId};
pub use play::Play;
pub use playing::{Played, with_pool};
pub use recorded::{Recorded, RecordedValue};
pub use running::Running;
pub use settings::Settings;
