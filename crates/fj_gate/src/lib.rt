//! A gate: it admits submissions, each with a ticket of its own, until it is closed. No end of it ever waits for another.
//!
//! A contract sees an [`Entrant`] as the tickets that it drew and what it has seen, a [`Closer`] as the number at which it closed
//! the gate. When all ends [`meet()`], the tickets are the numbers below the count of admissions, each drawn once. Only [`gate()`]
//! allocates.
//!
//! The gate is this project's own. Java says of `shutdown` of a `ForkJoinPool` that what was submitted before it is executed and
//! that nothing new is accepted; the closing number says how many submissions those are.
//!
//! ```
//! match entrant.admit() {
//!     // No other entrant of this gate has or gets this number.
//!     Ok(Ticket(number)) => Some(number),
//!     // The gate is closed, and stays so.
//!     Err(Closed) => None,
//! }
//! ```
#![tactic(auto)]

mod closer;
mod entrant;
mod look;
mod new_gate;
mod ticket;
mod tickets;
mod word;

pub use closer::{Closer, Closing};
pub use entrant::Entrant;
pub use look::Look;
pub use new_gate::{MAX_TICKETS, gate};
pub use ticket::{Closed, Ticket};
pub use tickets::{Tickets, meet};
