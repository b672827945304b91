//! Which threads sleep, which are woken, and how long a thread that polls sleeps.
//!
//! ```
//! let seen = condvar.notifications();
//! match idle.next_sleep() {
//!     Some(sleep) => condvar.sleep(&rt, seen, sleep),
//!     None => thread::yield_now(),
//! }
//! ```
#![tactic(auto)]

mod contention;
mod idle;
mod places;
mod sleeper;
mod sleepers;
mod sleeps;
mod wanted;
mod whom;

pub use contention::Contention;
pub use idle::Idle;
pub use places::{MAX_PLACES, Places};
pub use sleeper::Sleeper;
pub use sleepers::Sleepers;
pub use sleeps::Sleeps;
pub use wanted::Wanted;
