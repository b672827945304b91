//! Bodies and results by task number, and what a worker holds. All memory is allocated by `new`.
#![tactic(auto)]

mod aside;
mod hand;
mod serial_map;
mod serial_set;
mod slots;

pub use hand::Hand;
pub use serial_map::SerialMap;
pub use serial_set::SerialSet;
